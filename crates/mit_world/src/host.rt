//! The folder, the outbox and the console of the machine. What they hold is not told, nor what the folder is asked for. A
//! call that fails says on standard error what could not be done and what the system answered.
ghost use Rattle.std.specs.Prelude.{◌≡◌, ◌↔◌, ◌≤◌, ◌+◌, ◌-◌, ◌^◌, min, false, None, IfOk};
ghost use Rattle.std.specs.Io.{StartsWith};
ghost use Rattle.std.specs.IoError.{error_kind};
ghost use Rattle.mit_world.specs.Outside.{IfFailed, Rose};

use crate::outside::{Console, Folder, Outbox, OutsideStop};
use std::alloc::{AllocError, Global};
use std::fmt::Display;
use std::io::{ErrorKind, Print, Read, Write};
use std::marker::Model;
use std::rt::Files as FileSystem;
use std::{fs, io};

/// The longest file that is read, in bytes.
const LONGEST_FILE: u64 = 1_073_741_824;

/// The folder in which the files that are staged stand until they are published.
const STAGED: &str = "mitos-staged";

/// The folder of the files that are published.
const PUBLISHED: &str = "mitos-out";

/// The current folder. A name that is empty, `.` or `..`, or has a `/`, and what is no regular file, is a fault before
/// anything is opened.
#[derive(Drop)]
pub struct HostFolder<R> {
    rt: R,
    faults: u64,
}

impl<R> Model for HostFolder<R> {
    ghost use Rattle.std.specs.Prelude.{ℕ};

    ghost Value = { ℕ };

    ghost view = { λ a. a.faults };
}

impl<R> HostFolder<R> {
    /// The current folder of this runtime, before any call.
    pub fn new(rt: R) -> HostFolder<R>
        ensures { result ≡ 0 }
    {
        HostFolder { rt, faults: 0 }
    }
}

impl<R: FileSystem + Eprint> Folder for HostFolder<R> {
    ghost files = { λ _. None };

    ghost asked = { λ _. None };

    ghost faults = { λ s. s };

    fn read(&mut self, name: &str, into: &mut Vec<u8>) -> Result<bool, OutsideStop> {
        let length = into.len();
        let read = append_file(&self.rt, name, into);
        match said(&self.rt, format_args!("read {name:?}"), read) {
            Ok(found) => Ok(found),
            Err(error) => {
                into.truncate(length);
                Err(stop_of(&error, &mut self.faults))
            }
        }
    }
}

/// The folders `mitos-staged` and `mitos-out` of the current folder. The first call makes the one for the staged files,
/// without what stood there before; a publish renames it, and fails where there is a published one already. A name that
/// is empty, `.` or `..`, or has a `/`, is a fault.
#[derive(Drop)]
pub struct HostOutbox<R> {
    rt: R,
    is_open: bool,
    faults: u64,
}

impl<R> Model for HostOutbox<R> {
    ghost use Rattle.std.specs.Prelude.{ℕ};

    ghost Value = { ℕ };

    ghost view = { λ a. a.faults };
}

impl<R> HostOutbox<R> {
    /// The outbox in the current folder of this runtime, before any call.
    pub fn new(rt: R) -> HostOutbox<R>
        ensures { result ≡ 0 }
    {
        HostOutbox {
            rt,
            is_open: false,
            faults: 0,
        }
    }
}

impl<R: FileSystem + Eprint + AllocGlobal> Outbox for HostOutbox<R> {
    ghost held = { λ _. None };

    ghost faults = { λ s. s };

    fn stage(&mut self, name: &str, bytes: &[u8]) -> Result<(), OutsideStop> {
        match stage_file(&self.rt, &mut self.is_open, name, bytes) {
            Ok(()) => Ok(()),
            Err(error) => Err(stop_of(&error, &mut self.faults)),
        }
    }

    fn publish(&mut self) -> Result<(), OutsideStop> {
        match publish_staged(&self.rt, &mut self.is_open) {
            Ok(()) => Ok(()),
            Err(error) => Err(stop_of(&error, &mut self.faults)),
        }
    }
}

/// Standard output.
#[derive(Drop)]
pub struct HostConsole<R> {
    rt: R,
    faults: u64,
}

impl<R> Model for HostConsole<R> {
    ghost use Rattle.std.specs.Prelude.{ℕ};

    ghost Value = { ℕ };

    ghost view = { λ a. a.faults };
}

impl<R> HostConsole<R> {
    /// The standard output of this runtime, before any call.
    pub fn new(rt: R) -> HostConsole<R>
        ensures { result ≡ 0 }
    {
        HostConsole { rt, faults: 0 }
    }
}

impl<R: Print + Eprint> Console for HostConsole<R> {
    ghost written = { λ _. None };

    ghost faults = { λ s. s };

    fn put(&mut self, bytes: &[u8]) -> Result<(), OutsideStop> {
        match said(&self.rt, "print", print_bytes(&self.rt, bytes)) {
            Ok(()) => Ok(()),
            Err(error) => Err(stop_of(&error, &mut self.faults)),
        }
    }
}

// Why a call gave up. Each error is counted, except where memory ran out; the count stands still at its type's end.
fn stop_of(error: &io::Error, faults: &mut u64) -> OutsideStop
    ensures memory { result ≡ OutsideStop.NoMemory ↔ error_kind error.now ≡ ErrorKind.OutOfMemory }
    ensures failed { IfFailed result (Rose faults.old faults.new) }
    ensures count { faults.old ≤ faults.new }
{
    if error.kind() == ErrorKind::OutOfMemory {
        return OutsideStop::NoMemory;
    }
    *faults = faults.saturating_add(1);
    OutsideStop::Failed
}

// Passes on what a step gave. Where it failed, one line on standard error says what could not be done and what the system
// answered; where that cannot be said either, it is left.
fn said<T, R: Eprint, D: Display + Drop>(rt: &R, task: D, done: io::Result<T>) -> io::Result<T>
    ensures { result ≡ done }
{
    if let Err(error) = &done {
        let _ = eprintln!(rt; "mitos: cannot {task}: {error}");
    }
    done
}

// Refuses what is no name of an entry of a folder, so that no path reaches the machine.
fn check_name(name: &str) -> io::Result<()> {
    if name.is_empty() || name == "." || name == ".." || name.contains('/') {
        return Err(io::Error::new(ErrorKind::InvalidFilename, "not a file name"));
    }
    Ok(())
}

// Whether something of this name is there, also a link that leads nowhere.
fn is_there<R: FileSystem>(rt: &R, name: &str) -> io::Result<bool> {
    match fs::symlink_metadata(rt, name) {
        Ok(_) => Ok(true),
        Err(error) if error.kind() == ErrorKind::NotFound => Ok(false),
        Err(error) => Err(error),
    }
}

// How many bytes the file of this name has, or none where there is no such file. Only a regular file is ever opened: to
// open a as_pairs pipe would wait for its other end.
fn length_of<R: FileSystem>(rt: &R, name: &str) -> io::Result<Option<u64>> {
    check_name(name)?;
    let found = match fs::metadata(rt, name) {
        Ok(found) => found,
        Err(error) if error.kind() == ErrorKind::NotFound => return Ok(None),
        Err(error) => return Err(error),
    };
    if found.is_dir() {
        return Err(io::Error::from(ErrorKind::IsADirectory));
    }
    if !found.is_file() {
        return Err(io::Error::new(ErrorKind::InvalidInput, "not a regular file"));
    }
    Ok(Some(found.len()))
}

// Appends the file's bytes, or answers false where there is no file of this name.
fn append_file<R: FileSystem>(rt: &R, name: &str, into: &mut Vec<u8>) -> io::Result<bool>
    ensures appends { StartsWith into.new.items into.old.items }
    ensures absent { IfOk result (λ found. found ≡ false → into.new.items ≡ into.old.items) }
{
    match length_of(rt, name)? {
        Some(length) => {
            append_bytes(rt, name, length, into)?;
            Ok(true)
        }
        None => Ok(false),
    }
}

// Appends the bytes of a file that has so many. One byte more is kept free, so that the read at its end needs no more
// room.
fn append_bytes<R: FileSystem>(
    rt: &R,
    name: &str,
    length: u64,
    into: &mut Vec<u8>,
) -> io::Result<()>
    ensures { StartsWith into.new.items into.old.items }
{
    if length > LONGEST_FILE {
        return Err(io::Error::from(ErrorKind::FileTooLarge));
    }
    let file = fs::open(rt, name)?;
    into.reserve(length as usize + 1)?;
    let appended = file.take(LONGEST_FILE + 1).read_to_end(into)?;
    if appended as u64 > LONGEST_FILE {
        return Err(io::Error::from(ErrorKind::FileTooLarge));
    }
    Ok(())
}

// Makes the folder of the staged files, without any file, unless it is open already.
fn open_staged<R: FileSystem + Eprint + AllocGlobal>(rt: &R, is_open: &mut bool) -> io::Result<()> {
    if !*is_open {
        said(rt, format_args!("make {STAGED:?}"), make_staged(rt))?;
        *is_open = true;
    }
    Ok(())
}

// A link of that name is removed, and not what it leads to.
fn make_staged<R: FileSystem + AllocGlobal>(rt: &R) -> io::Result<()> {
    if is_there(rt, STAGED)? {
        fs::remove_dir_all(rt, STAGED)?;
    }
    fs::create_dir(rt, STAGED)
}

fn stage_file<R: FileSystem + Eprint + AllocGlobal>(
    rt: &R,
    is_open: &mut bool,
    name: &str,
    bytes: &[u8],
) -> io::Result<()> {
    said(rt, format_args!("write {name:?}"), check_name(name))?;
    open_staged(rt, is_open)?;
    let path = staged_path(rt.alloc(), name)?;
    write_file(rt, path.as_str(), bytes)
}

// Where the staged file of this name stands.
fn staged_path(alloc: Global, name: &str) -> Result<String, AllocError> {
    let mut path = String::from_str(alloc, STAGED)?;
    path.push('/')?;
    path.push_str(name)?;
    Ok(path)
}

fn write_file<R: FileSystem + Eprint>(rt: &R, path: &str, bytes: &[u8]) -> io::Result<()> {
    said(
        rt,
        format_args!("write {path:?}"),
        fs::write(rt, path, bytes),
    )
}

fn publish_staged<R: FileSystem + Eprint + AllocGlobal>(
    rt: &R,
    is_open: &mut bool,
) -> io::Result<()> {
    open_staged(rt, is_open)?;
    said(rt, format_args!("make {PUBLISHED:?}"), rename_staged(rt))
}

// A rename onto an empty folder would succeed, so the published folder is looked for first.
fn rename_staged<R: FileSystem>(rt: &R) -> io::Result<()> {
    if is_there(rt, PUBLISHED)? {
        return Err(io::Error::new(ErrorKind::AlreadyExists, "it is already there"));
    }
    fs::rename(rt, STAGED, PUBLISHED)
}

fn print_bytes<R: Print>(rt: &R, bytes: &[u8]) -> io::Result<()> {
    let mut out = io::writer(rt);
    out.write_all(bytes)?;
    out.flush()
}
