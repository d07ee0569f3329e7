//! The words that stand after a directive.
use crate::content::{longer, word_of};
use crate::wrong::Wrong;
use std::alloc::Global;

/// The words of a text, between which one blank stands.
pub(crate) fn words(alloc: Global, text: &str) -> Result<Vec<String>, Wrong> {
    let mut words = Vec::new(alloc);
    if text.is_empty() {
        return Ok(words);
    }
    for written in text.split(" ") {
        words.push(word(alloc, written)?)?;
    }
    Ok(words)
}

/// The word of a text that has just one.
pub(crate) fn one_word(alloc: Global, text: &str) -> Result<String, Wrong> {
    if text.is_empty() || has(text, b' ') {
        return Err(Wrong::NOT_ONE_WORD);
    }
    word(alloc, text)
}

/// The numbers of a text, between which one blank stands.
pub(crate) fn numbers(alloc: Global, text: &str) -> Result<Vec<u64>, Wrong> {
    let mut numbers = Vec::new(alloc);
    for digits in text.split(" ") {
        numbers.push(number(digits)?)?;
    }
    Ok(numbers)
}

/// A number in decimal digits.
pub(crate) fn number(digits: &str) -> Result<u64, Wrong> {
    if digits.is_empty() {
        return Err(Wrong::NOT_NUMBER);
    }
    let mut number = 0;
    for byte in digits.as_bytes() {
        number = longer(number, *byte)?;
    }
    Ok(number)
}

// A word in its written form: the empty word is two quotes.
fn word(alloc: Global, written: &str) -> Result<String, Wrong> {
    if written == "\"\"" {
        return Ok(String::new(alloc));
    }
    if written.is_empty() || has(written, b'"') {
        return Err(Wrong::WORD);
    }
    match String::from_utf8(word_of(alloc, written.as_bytes())?) {
        Ok(word) => Ok(word),
        Err(_) => Err(Wrong::NOT_TEXT),
    }
}

// Whether this byte stands in a text.
fn has(text: &str, wanted: u8) -> bool {
    for byte in text.as_bytes() {
        if *byte == wanted {
            return true;
        }
    }
    false
}
