//! A case, and how it is read from its directives.
use crate::entry::{Entry, entries, first_word};
use crate::words::{number, numbers, one_word, words};
use crate::wrong::Wrong;
use mit_world::Files;
use std::alloc::{AllocError, Global};

/// A call of the top call, and what is wanted of it.
#[derive(Drop)]
pub(crate) struct Case {
    pub(crate) words: Vec<String>,
    pub(crate) files: Files,
    pub(crate) status: u64,
    pub(crate) console: Vec<u8>,
    pub(crate) staged: Wanted,
    pub(crate) published: Wanted,
    pub(crate) calls: Calls,
    pub(crate) fails: Fails,
    pub(crate) stated: Stated,
}

/// The numbers of the calls that fail, from 1.
#[derive(Drop)]
pub(crate) struct Fails {
    pub(crate) folder: Vec<u64>,
    pub(crate) outbox: Vec<u64>,
    pub(crate) console: Vec<u64>,
}

/// How often folder, outbox and console are called, where that is stated.
#[derive(Clone, Copy)]
pub(crate) struct Calls {
    pub(crate) folder: Option<u64>,
    pub(crate) outbox: Option<u64>,
    pub(crate) console: Option<u64>,
}

/// What is wanted of the staged or of the published files.
#[derive(Drop)]
pub(crate) struct Wanted {
    pub(crate) kind: Kind,
    pub(crate) files: Files,
}

/// How it is stated which files are wanted.
#[derive(Clone, Copy)]
pub(crate) enum Kind {
    /// Not yet.
    Open,
    /// Nothing is published, not even no file.
    Never,
    /// There is no file.
    NoFile,
    /// There are files.
    Some,
}

/// What the directives have stated so far, of what is stated once.
#[derive(Clone, Copy)]
pub(crate) struct Stated {
    words: bool,
    status: bool,
    console: bool,
    folder_fails: bool,
    outbox_fails: bool,
    console_fails: bool,
}

// A directive of a case.
#[derive(Clone, Copy)]
enum Directive {
    Words,
    File,
    Fails,
    Status,
    Console,
    ConsoleSilent,
    Staged,
    NothingStaged,
    Published,
    PublishedNoFile,
    NothingPublished,
    Sent,
    OutboxUntouched,
    Calls,
}

// The words of the directives.
const DIRECTIVES: [(&str, Directive); 14] = [
    ("words", Directive::Words),
    ("file", Directive::File),
    ("fails", Directive::Fails),
    ("status", Directive::Status),
    ("console", Directive::Console),
    ("console-silent", Directive::ConsoleSilent),
    ("staged", Directive::Staged),
    ("nothing-staged", Directive::NothingStaged),
    ("published", Directive::Published),
    ("published-no-file", Directive::PublishedNoFile),
    ("nothing-published", Directive::NothingPublished),
    ("sent", Directive::Sent),
    ("outbox-untouched", Directive::OutboxUntouched),
    ("calls", Directive::Calls),
];

// An object that is called.
#[derive(Clone, Copy)]
enum Outside {
    Folder,
    Outbox,
    Console,
}

/// The files that the head of a topic states for all of its cases. At a refusal `line` is the number of the line.
pub(crate) fn read_head(alloc: Global, head: &str, line: &mut u64) -> Result<Files, Wrong> {
    let mut shared = Files::new(alloc);
    for entry in &entries(alloc, head, line)? {
        *line = entry.line;
        share(alloc, &mut shared, entry)?;
    }
    Ok(shared)
}

fn share(alloc: Global, shared: &mut Files, entry: &Entry<'_>) -> Result<(), Wrong> {
    if entry.word != "shared" {
        return Err(Wrong::UNKNOWN);
    }
    if !entry.has_content {
        return Err(Wrong::NO_CONTENT);
    }
    add_file(alloc, shared, entry)
}

/// The case that lines state, with the shared files of its topic. At a refusal `line` is the number of the line.
pub(crate) fn read_case(
    alloc: Global,
    lines: &str,
    shared: &Files,
    line: &mut u64,
) -> Result<Case, Wrong> {
    let begin = *line;
    let mut case = Case::new(alloc, shared)?;
    case.take_lines(alloc, lines, line)?;
    *line = begin;
    case.refuse_missing()?;
    Ok(case)
}

impl Case {
    fn new(alloc: Global, shared: &Files) -> Result<Case, AllocError> {
        Ok(Case {
            files: shared.copy(alloc)?,
            words: Vec::new(alloc),
            status: 0,
            console: Vec::new(alloc),
            staged: Wanted::new(alloc),
            published: Wanted::new(alloc),
            calls: Calls {
                folder: None,
                outbox: None,
                console: None,
            },
            fails: Fails {
                folder: Vec::new(alloc),
                outbox: Vec::new(alloc),
                console: Vec::new(alloc),
            },
            stated: Stated {
                words: false,
                status: false,
                console: false,
                folder_fails: false,
                outbox_fails: false,
                console_fails: false,
            },
        })
    }

    fn take_lines(&mut self, alloc: Global, lines: &str, line: &mut u64) -> Result<(), Wrong> {
        for entry in &entries(alloc, lines, line)? {
            *line = entry.line;
            self.take(alloc, entry)?;
        }
        Ok(())
    }

    fn take(&mut self, alloc: Global, entry: &Entry<'_>) -> Result<(), Wrong> {
        let directive = directive_of(entry.word)?;
        if entry.has_content {
            self.take_content(alloc, directive, entry)
        } else if entry.rest.is_empty() {
            self.take_word(directive)
        } else {
            self.take_words(alloc, directive, entry.rest)
        }
    }

    // A directive with content.
    fn take_content(
        &mut self,
        alloc: Global,
        directive: Directive,
        entry: &Entry<'_>,
    ) -> Result<(), Wrong> {
        match directive {
            Directive::File => add_file(alloc, &mut self.files, entry),
            Directive::Console => self.take_console(entry),
            Directive::Staged => self.staged.add(alloc, entry),
            Directive::Published => self.published.add(alloc, entry),
            Directive::Sent => self.take_sent(alloc, entry),
            Directive::Words | Directive::Status | Directive::Fails | Directive::Calls => {
                Err(Wrong::CONTENT_HERE)
            }
            _ => Err(Wrong::UNKNOWN),
        }
    }

    fn take_console(&mut self, entry: &Entry<'_>) -> Result<(), Wrong> {
        if !entry.rest.is_empty() {
            return Err(Wrong::WORDS_HERE);
        }
        once(&mut self.stated.console)?;
        Ok(self.console.extend_from_slice(&entry.content)?)
    }

    fn take_sent(&mut self, alloc: Global, entry: &Entry<'_>) -> Result<(), Wrong> {
        self.staged.add(alloc, entry)?;
        self.published.add(alloc, entry)
    }

    // A directive that is a word alone.
    fn take_word(&mut self, directive: Directive) -> Result<(), Wrong> {
        match directive {
            Directive::Words => once(&mut self.stated.words),
            Directive::ConsoleSilent => once(&mut self.stated.console),
            Directive::NothingStaged => self.staged.set(Kind::NoFile),
            Directive::NothingPublished => self.published.set(Kind::Never),
            Directive::PublishedNoFile => self.published.set(Kind::NoFile),
            Directive::OutboxUntouched => self.leave_outbox(),
            _ => Err(wrong_without_content(directive)),
        }
    }

    fn leave_outbox(&mut self) -> Result<(), Wrong> {
        self.staged.set(Kind::NoFile)?;
        self.published.set(Kind::Never)?;
        set(&mut self.calls.outbox, 0)
    }

    // A directive with words after it.
    fn take_words(&mut self, alloc: Global, directive: Directive, rest: &str) -> Result<(), Wrong> {
        match directive {
            Directive::Words => self.take_call(alloc, rest),
            Directive::Status => self.take_status(rest),
            Directive::Fails => self.take_fails(alloc, rest),
            Directive::Calls => self.take_calls(rest),
            _ => Err(wrong_without_content(directive)),
        }
    }

    fn take_call(&mut self, alloc: Global, rest: &str) -> Result<(), Wrong> {
        self.words = words(alloc, rest)?;
        once(&mut self.stated.words)
    }

    fn take_status(&mut self, digits: &str) -> Result<(), Wrong> {
        self.status = number(digits)?;
        if self.status > 255 {
            return Err(Wrong::NOT_NUMBER);
        }
        once(&mut self.stated.status)
    }

    fn take_fails(&mut self, alloc: Global, rest: &str) -> Result<(), Wrong> {
        let (outside, digits) = first_word(rest);
        let fails = numbers(alloc, digits)?;
        let outside = outside_of(outside)?;
        self.set_fails(outside, fails);
        self.once_fails(outside)
    }

    fn set_fails(&mut self, outside: Outside, fails: Vec<u64>) {
        match outside {
            Outside::Folder => self.fails.folder = fails,
            Outside::Outbox => self.fails.outbox = fails,
            Outside::Console => self.fails.console = fails,
        }
    }

    fn once_fails(&mut self, outside: Outside) -> Result<(), Wrong> {
        match outside {
            Outside::Folder => once(&mut self.stated.folder_fails),
            Outside::Outbox => once(&mut self.stated.outbox_fails),
            Outside::Console => once(&mut self.stated.console_fails),
        }
    }

    fn take_calls(&mut self, rest: &str) -> Result<(), Wrong> {
        let (outside, digits) = first_word(rest);
        let calls = number(digits)?;
        match outside_of(outside)? {
            Outside::Folder => set(&mut self.calls.folder, calls),
            Outside::Outbox => set(&mut self.calls.outbox, calls),
            Outside::Console => set(&mut self.calls.console, calls),
        }
    }

    // Refuses a case that does not state all that has to be stated.
    fn refuse_missing(&self) -> Result<(), Wrong> {
        if !self.stated.words {
            return Err(Wrong::NO_WORDS);
        }
        if !self.stated.status {
            return Err(Wrong::NO_STATUS);
        }
        if !self.stated.console {
            return Err(Wrong::NO_CONSOLE);
        }
        match (self.staged.kind, self.published.kind) {
            (Kind::Open, _) => Err(Wrong::NO_STAGED),
            (_, Kind::Open) => Err(Wrong::NO_PUBLISHED),
            _ => Ok(()),
        }
    }
}

impl Wanted {
    fn new(alloc: Global) -> Wanted {
        Wanted {
            kind: Kind::Open,
            files: Files::new(alloc),
        }
    }

    // States this, where nothing is stated yet.
    fn set(&mut self, kind: Kind) -> Result<(), Wrong> {
        match self.kind {
            Kind::Open => {
                self.kind = kind;
                Ok(())
            }
            _ => Err(Wrong::TWICE),
        }
    }

    // States one file more.
    fn add(&mut self, alloc: Global, entry: &Entry<'_>) -> Result<(), Wrong> {
        match self.kind {
            Kind::Open | Kind::Some => {
                self.kind = Kind::Some;
                add_file(alloc, &mut self.files, entry)
            }
            _ => Err(Wrong::TWICE),
        }
    }
}

fn directive_of(word: &str) -> Result<Directive, Wrong> {
    for (name, directive) in &DIRECTIVES {
        if *name == word {
            return Ok(*directive);
        }
    }
    Err(Wrong::UNKNOWN)
}

fn outside_of(word: &str) -> Result<Outside, Wrong> {
    match word {
        "folder" => Ok(Outside::Folder),
        "outbox" => Ok(Outside::Outbox),
        "console" => Ok(Outside::Console),
        _ => Err(Wrong::NOT_OUTSIDE),
    }
}

// What is wrong with a directive that has no content and is none of those that may have none.
fn wrong_without_content(directive: Directive) -> Wrong {
    match directive {
        Directive::File
        | Directive::Console
        | Directive::Staged
        | Directive::Published
        | Directive::Sent => Wrong::NO_CONTENT,
        _ => Wrong::UNKNOWN,
    }
}

// Adds the file of an entry, of a name that stands in its written form and that no other file has.
fn add_file(alloc: Global, files: &mut Files, entry: &Entry<'_>) -> Result<(), Wrong> {
    let name = one_word(alloc, entry.rest)?;
    put_new(files, name.as_str(), &entry.content)
}

fn put_new(files: &mut Files, name: &str, bytes: &[u8]) -> Result<(), Wrong> {
    if files.get(name).is_some() {
        return Err(Wrong::TWICE);
    }
    Ok(files.put(name, bytes)?)
}

// States what is stated once.
fn once(stated: &mut bool) -> Result<(), Wrong> {
    if *stated {
        return Err(Wrong::TWICE);
    }
    *stated = true;
    Ok(())
}

// States a number, where none is stated yet.
fn set(stated: &mut Option<u64>, number: u64) -> Result<(), Wrong> {
    if stated.is_some() {
        return Err(Wrong::TWICE);
    }
    *stated = Some(number);
    Ok(())
}
