//! The text of a bag: its rows in order, as a file has them.
ghost use Rattle.std.specs.Prelude.{◌≡◌, ◌++◌, ◌∷◌, [], map, IfOk, OnOk};
ghost use Rattle.csv.specs.Records.{fields_of, partial_of};
ghost use Rattle.mit_files.specs.Printed.{bag_text, value_text};

use csv::{ByteRecord, WriterBuilder};
use itoa::Buffer;
use mit_bags::Bag;
use mit_rows::{Row, Value};
use std::alloc::{AllocError, Global};

/// How many bytes a row is expected to take, which only saves time.
const USUAL_ROW: usize = 8;

/// Adds the text of a value to a record.
fn push_value(texts: &mut ByteRecord, value: &Value) -> Result<(), AllocError>
    requires { partial_of texts.old ≡ [] }
    ensures fields { OnOk result (
        fields_of texts.new ≡ fields_of texts.old ++ value_text value.now ∷ []) }
    ensures partial { OnOk result (partial_of texts.new ≡ []) }
{
    match value {
        Value::Int(number) => texts.push_field(Buffer::new().format(*number).as_bytes()),
        Value::Text(text) => texts.push_field(text.bytes()),
        Value::Bool(true) => texts.push_field(b"true"),
        Value::Bool(false) => texts.push_field(b"false"),
    }
}

/// Makes a record of the texts of a row's values.
fn fill_record(texts: &mut ByteRecord, row: &Row) -> Result<(), AllocError>
    ensures { OnOk result (fields_of texts.new ≡ map value_text row.now) }
{
    texts.clear();
    for value in row.values() {
        push_value(texts, value)?;
    }
    Ok(())
}

/// The text of a bag as CSV: its rows in order, with commas, quotes where necessary and a line feed after each.
///
/// Each error of the writer is answered as out of memory: into bytes in memory nothing else fails.
pub fn print_rows(alloc: Global, bag: &Bag) -> Result<Vec<u8>, AllocError>
    ensures { IfOk result (λ text. text.items ≡ bag_text bag.now) }
{
    let rows = bag.rows();
    let text = Vec::with_capacity(alloc, rows.len().saturating_mul(USUAL_ROW))?;
    let mut writer = WriterBuilder::new().flexible(true).from_writer(text);
    let mut texts = ByteRecord::new(alloc);
    for row in rows {
        fill_record(&mut texts, row)?;
        let Ok(()) = writer.write_byte_record(&texts) else {
            return Err(AllocError);
        };
    }
    match writer.into_inner() {
        Ok(text) => Ok(text),
        Err(_) => Err(AllocError),
    }
}
