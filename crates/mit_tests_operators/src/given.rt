//! What the tests are given: parts of lines, and rows. A row is written as its values with commas between: integers, truth
//! values, and texts after a `'`.
use mit_rows::{MAX_COLUMNS, Row, Text, Value};
use std::process::Abort;

/// The part of a line that has this number, from 0, where this stands between parts; where there is none, the empty text.
pub(crate) fn part<'a>(line: &'a str, between: &str, number: usize) -> &'a str {
    line.split(between).nth(number).unwrap_or("")
}

pub(crate) fn value_of(rt: &(impl Abort + AllocGlobal), words: &str) -> Value {
    match words.strip_prefix("'") {
        Some(words) => {
            Value::Text(Text::from_str(rt.alloc(), words).expect(rt, "a text within the limit"))
        }
        None => match words.parse() {
            Ok(number) => Value::Int(number),
            Err(_) => Value::Bool(words == "true"),
        },
    }
}

pub(crate) fn row_of(rt: &(impl Abort + AllocGlobal), words: &str) -> Row {
    let mut values = Vec::new(rt.alloc());
    for value in words.split(",") {
        values.push(value_of(rt, value)).expect(rt, "memory");
    }
    assert!(rt; values.len() <= MAX_COLUMNS);
    Row::from_values(values).expect(rt, "memory")
}
