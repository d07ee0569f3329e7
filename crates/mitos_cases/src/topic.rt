//! A topic: a file of cases, which are run one after another.
use crate::case::{read_case, read_head};
use crate::trial::run_case;
use crate::wrong::Wrong;
use mit_world::Files;
use std::alloc::{AllocError, Global};
use std::rt::Files as FileSystem;
use std::{fs, io};

/// Runs the cases of this file, prints a line for each, and tells whether all of them passed. The names of all cases that were
/// met so far stand in `names`.
pub(crate) fn run_topic<R: FileSystem + Print + AllocGlobal>(
    rt: &R,
    topic: &str,
    names: &mut Vec<String>,
) -> io::Result<bool> {
    let Ok(file) = fs::read_to_string(rt, topic) else {
        println!(rt; "FAILED topic {topic}: it is no file of text that can be read")?;
        return Ok(false);
    };
    let text = after_line_feed(rt.alloc(), file.as_str())?;
    run_text(rt, topic, text.as_str(), names)
}

// A text after a line feed, so that the first line of a file may begin a case too.
fn after_line_feed(alloc: Global, file: &str) -> Result<String, AllocError> {
    let mut text = String::from_str(alloc, "\n")?;
    text.push_str(file)?;
    Ok(text)
}

// Each section of the text but its head is a case.
fn run_text<R: Print + AllocGlobal>(
    rt: &R,
    topic: &str,
    text: &str,
    names: &mut Vec<String>,
) -> io::Result<bool> {
    let mut sections = text.split("\ncase ");
    let head = sections.next().unwrap_or("");
    let mut line = 0;
    let shared = match read_head(rt.alloc(), first_line(head).1, &mut line) {
        Ok(shared) => shared,
        Err(wrong) => return tell_malformed(rt, "head", topic, line, wrong),
    };
    let mut passed = true;
    let mut line = line_after(0, head);
    for section in sections {
        if !run_section(rt, topic, section, line, &shared, names)? {
            passed = false;
        }
        line = line_after(line, section);
    }
    Ok(passed)
}

// The first line of a text, and the lines after it.
fn first_line(text: &str) -> (&str, &str) {
    match text.split_once("\n") {
        Some(parts) => parts,
        None => (text, ""),
    }
}

// The number of the line after a section that begins at this one.
fn line_after(line: u64, section: &str) -> u64 {
    let mut after = line.saturating_add(1);
    for byte in section.as_bytes() {
        if *byte == b'\n' {
            after = after.saturating_add(1);
        }
    }
    after
}

// Runs the case of a section, which has its name in its first line.
fn run_section<R: Print + AllocGlobal>(
    rt: &R,
    topic: &str,
    section: &str,
    line: u64,
    shared: &Files,
    names: &mut Vec<String>,
) -> io::Result<bool> {
    let (name, lines) = first_line(section);
    let mut place = line;
    match differences(rt.alloc(), name, lines, shared, names, &mut place) {
        Ok(differences) => tell(rt, name, topic, line, differences.as_str()),
        Err(wrong) => tell_malformed(rt, name, topic, place, wrong),
    }
}

// What comes otherwise than a case states. At a refusal `line` is the number of the line.
fn differences(
    alloc: Global,
    name: &str,
    lines: &str,
    shared: &Files,
    names: &mut Vec<String>,
    line: &mut u64,
) -> Result<String, Wrong> {
    add_name(alloc, name, names)?;
    let case = read_case(alloc, lines, shared, line)?;
    Ok(run_case(alloc, case)?)
}

// Adds a name that no case has had yet.
fn add_name(alloc: Global, name: &str, names: &mut Vec<String>) -> Result<(), Wrong> {
    if name.is_empty() {
        return Err(Wrong::NO_NAME);
    }
    for other in names.iter() {
        if other.as_str() == name {
            return Err(Wrong::NAME_TWICE);
        }
    }
    names.push(String::from_str(alloc, name)?)?;
    Ok(())
}

// Tells of a case that was run, and whether it passed.
fn tell(
    rt: &impl Print,
    name: &str,
    topic: &str,
    line: u64,
    differences: &str,
) -> io::Result<bool> {
    if differences.is_empty() {
        println!(rt; "{name}")?;
        return Ok(true);
    }
    println!(rt; "FAILED {name} ({topic}, line {line}): {differences}")?;
    Ok(false)
}

// Tells of a case or a head that is malformed, which has not passed.
fn tell_malformed(
    rt: &impl Print,
    name: &str,
    topic: &str,
    line: u64,
    wrong: Wrong,
) -> io::Result<bool> {
    let Wrong(words) = wrong;
    println!(rt; "FAILED {name} ({topic}, line {line}): malformed: {words}")?;
    Ok(false)
}
