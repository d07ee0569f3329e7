//! The directives of a section, each with the content that stands below it.
use crate::content::line_of;
use crate::wrong::Wrong;
use std::alloc::Global;

/// A directive.
#[derive(Drop)]
pub(crate) struct Entry<'a> {
    /// The number of its line, from 1.
    pub(crate) line: u64,
    pub(crate) word: &'a str,
    /// What stands after the word and a blank.
    pub(crate) rest: &'a str,
    pub(crate) has_content: bool,
    /// What its content lines state.
    pub(crate) content: Vec<u8>,
}

/// The directives of lines, of which the first has the number after this one. At a refusal that is the number of the line which is
/// refused. Blank lines and those that begin with `#` end the content of the directive above.
pub(crate) fn entries<'a>(
    alloc: Global,
    lines: &'a str,
    number: &mut u64,
) -> Result<Vec<Entry<'a>>, Wrong> {
    let mut entries = Vec::new(alloc);
    let mut is_open = false;
    for line in lines.split("\n") {
        *number = number.saturating_add(1);
        refuse_bytes(line.as_bytes())?;
        is_open = match line.as_bytes() {
            [b'|', ..] if !is_open => return Err(Wrong::STRAY),
            [b'|', content @ ..] => add_content(alloc, &mut entries, content)?,
            [] | [b'#', ..] => false,
            _ => add_directive(alloc, &mut entries, *number, line)?,
        };
    }
    Ok(entries)
}

// Refuses bytes of a line that have to be written as escapes.
fn refuse_bytes(line: &[u8]) -> Result<(), Wrong> {
    for byte in line {
        if *byte < b' ' || *byte == 0x7f {
            return Err(Wrong::CONTROL);
        }
    }
    match line {
        [.., b' '] => Err(Wrong::ENDS_IN_BLANK),
        _ => Ok(()),
    }
}

// Adds what stands after the bar of a content line to the last directive, which stays open.
fn add_content(alloc: Global, entries: &mut Vec<Entry<'_>>, content: &[u8]) -> Result<bool, Wrong> {
    let bytes = line_of(alloc, text_after_bar(content)?)?;
    if let Some(entry) = entries.last_mut() {
        entry.has_content = true;
        entry.content.extend_from_slice(&bytes)?;
    }
    Ok(true)
}

fn text_after_bar(content: &[u8]) -> Result<&[u8], Wrong> {
    match content {
        [] => Ok(content),
        [b' ', text @ ..] => Ok(text),
        _ => Err(Wrong::NO_BLANK),
    }
}

// Adds a directive, which is open then.
fn add_directive<'a>(
    alloc: Global,
    entries: &mut Vec<Entry<'a>>,
    line: u64,
    text: &'a str,
) -> Result<bool, Wrong> {
    let (word, rest) = first_word(text);
    entries.push(Entry {
        line,
        word,
        rest,
        has_content: false,
        content: Vec::new(alloc),
    })?;
    Ok(true)
}

/// The part of a text before its first blank, and the part after it.
pub(crate) fn first_word(text: &str) -> (&str, &str) {
    match text.split_once(" ") {
        Some(parts) => parts,
        None => (text, ""),
    }
}
