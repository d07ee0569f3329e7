//! The three objects of the outside, kept in memory. Each counts its calls and fails exactly the
//! calls whose numbers, from 1, are in a list. The count stands still at its type's end, and a call
//! beyond it has no number. The folder notes the names that it is asked for, also where it fails.
ghost use Rattle.std.specs.Prelude.{◌≡◌, ◌≤◌, ◌++◌, ◌↔◌, [], ◌∷◌, Some, None, map, option_map, string_bytes, IsTrue};
ghost use Rattle.std.specs.Prelude.{IfOk, IfErr, OnOk, OnErr, IsErrOf};
ghost use Rattle.std.specs.FinMap as fin;
ghost use Rattle.mit_world.specs.Outside.{AsksAtMost, IfFailed, ReadsAs, Rose, publishes, stages};
ghost use Rattle.mit_memory.specs.Memory.{counted, failures, next_fails};

use mit_world::{Console, Files, Folder, Outbox, OutsideStop};
use std::alloc::{AllocError, Global};
use std::marker::Model;

/// A folder in memory.
#[derive(Drop)]
pub struct MemFolder {
    files: Files,
    asked: Vec<String>,
    fails: Vec<u64>,
    calls: u64,
}

impl Model for MemFolder {
    ghost use Rattle.std.specs.Prelude.{map, string_bytes};
    ghost use Rattle.mit_memory.specs.Memory.{FolderState, folder_code};

    ghost Value = { FolderState };

    ghost coded = { folder_code };

    ghost view = { λ a. record {
      files = a.files;
      asked = map string_bytes a.asked.items;
      fails = a.fails.items;
      calls = a.calls;
    } };
}

impl MemFolder {
    /// A folder of these files, which fails the calls of these numbers.
    pub fn new(files: Files, fails: Vec<u64>) -> MemFolder
        ensures { result ≡ record { files = files; asked = []; fails = fails.items; calls = 0 } }
    {
        MemFolder {
            files,
            asked: Vec::new(*fails.allocator()),
            fails,
            calls: 0,
        }
    }

    /// How many calls were made.
    pub fn calls(&self) -> u64
        ensures calls { result ≡ self.now.calls }
        ensures none { self.now.fails ≡ [] → failures self.now.fails self.now.calls ≡ 0 }
    {
        self.calls
    }

    /// The names of the files that it was asked for, in order. Where memory ran out for a name, it is not among them.
    pub fn asked(&self) -> &[String]
        ensures { map string_bytes result.now ≡ self.now.asked }
    {
        &self.asked
    }

    // Notes that it is asked for this name.
    fn note(&mut self, name: &str) -> Result<(), AllocError>
        ensures ok { OnOk result (self.new ≡ record self.old { asked = self.old.asked ++ name.now ∷ [] }) }
        ensures err { OnErr result (self.new ≡ self.old) }
    {
        let name = String::from_str(*self.fails.allocator(), name)?;
        self.asked.push(name)?;
        Ok(())
    }
}

impl Folder for MemFolder {
    ghost files = { λ s. Some s.files };

    ghost asked = { λ s. Some s.asked };

    ghost faults = { λ s. failures s.fails s.calls };

    fn read(&mut self, name: &str, into: &mut Vec<u8>) -> Result<bool, OutsideStop>
        ensures ok { IfOk result (λ found.
            ReadsAs (Some self.old.files) name.now found into.old.items into.new.items) }
        ensures err { OnErr result (into.new.items ≡ into.old.items) }
        ensures failed { IfErr result (λ stop. IfFailed stop (Rose
            (failures self.old.fails self.old.calls) (failures self.new.fails self.new.calls))) }
        ensures told { self.new.files ≡ self.old.files }
        ensures asks { OnOk result (self.new.asked ≡ self.old.asked ++ name.now ∷ []) }
        ensures asks_at_most { OnErr result (AsksAtMost name.now (Some self.old.asked) (Some self.new.asked)) }
        ensures count { failures self.old.fails self.old.calls ≤ failures self.new.fails self.new.calls }
        ensures after { self.new ≡ record self.old { asked = self.new.asked; calls = counted self.old.calls } }
        ensures fails { IsErrOf result OutsideStop.Failed ↔ IsTrue (next_fails self.old.fails self.old.calls) }
    {
        let noted = self.note(name);
        if count_call(&self.fails, &mut self.calls) {
            return Err(OutsideStop::Failed);
        }
        noted?;
        match self.files.get(name) {
            Some(bytes) => {
                into.extend_from_slice(bytes)?;
                Ok(true)
            }
            None => Ok(false),
        }
    }
}

/// An outbox in memory. Its stages and publishes are counted together.
#[derive(Drop)]
pub struct MemOutbox {
    staged: Files,
    published: Option<Files>,
    fails: Vec<u64>,
    calls: u64,
}

impl Model for MemOutbox {
    ghost use Rattle.mit_memory.specs.Memory.{OutboxState, outbox_code};

    ghost Value = { OutboxState };

    ghost coded = { outbox_code };

    ghost view = { λ a. record {
      held = record { staged = a.staged; published = a.published };
      fails = a.fails.items;
      calls = a.calls;
    } };
}

impl MemOutbox {
    /// An outbox that holds nothing, which fails the calls of these numbers.
    pub fn new(alloc: Global, fails: Vec<u64>) -> MemOutbox
        ensures { result ≡ record {
          held = record { staged = fin.empty; published = None };
          fails = fails.items;
          calls = 0;
        } }
    {
        MemOutbox {
            staged: Files::new(alloc),
            published: None,
            fails,
            calls: 0,
        }
    }

    /// How many calls were made, stages and publishes together.
    pub fn calls(&self) -> u64
        ensures calls { result ≡ self.now.calls }
        ensures none { self.now.fails ≡ [] → failures self.now.fails self.now.calls ≡ 0 }
    {
        self.calls
    }

    /// The files that were published last, where any were.
    pub fn published(&self) -> Option<&Files>
        ensures { option_map (λ files. files.now) result ≡ self.now.held.published }
    {
        self.published.as_ref()
    }

    /// The staged files.
    pub fn staged(&self) -> &Files
        ensures { result.now ≡ self.now.held.staged }
    {
        &self.staged
    }
}

impl Outbox for MemOutbox {
    ghost held = { λ s. Some s.held };

    ghost faults = { λ s. failures s.fails s.calls };

    fn stage(&mut self, name: &str, bytes: &[u8]) -> Result<(), OutsideStop>
        ensures ok { OnOk result (self.new.held ≡ stages name.now bytes.now self.old.held) }
        ensures err { OnErr result (self.new.held ≡ self.old.held) }
        ensures failed { IfErr result (λ stop. IfFailed stop (Rose
            (failures self.old.fails self.old.calls) (failures self.new.fails self.new.calls))) }
        ensures count { failures self.old.fails self.old.calls ≤ failures self.new.fails self.new.calls }
        ensures after { self.new ≡ record self.old { held = self.new.held; calls = counted self.old.calls } }
        ensures fails { IsErrOf result OutsideStop.Failed ↔ IsTrue (next_fails self.old.fails self.old.calls) }
    {
        if count_call(&self.fails, &mut self.calls) {
            return Err(OutsideStop::Failed);
        }
        self.staged.put(name, bytes)?;
        Ok(())
    }

    fn publish(&mut self) -> Result<(), OutsideStop>
        ensures ok { OnOk result (self.new.held ≡ publishes self.old.held) }
        ensures err { OnErr result (self.new.held ≡ self.old.held) }
        ensures failed { IfErr result (λ stop. IfFailed stop (Rose
            (failures self.old.fails self.old.calls) (failures self.new.fails self.new.calls))) }
        ensures count { failures self.old.fails self.old.calls ≤ failures self.new.fails self.new.calls }
        ensures after { self.new ≡ record self.old { held = self.new.held; calls = counted self.old.calls } }
        ensures fails { IsErrOf result OutsideStop.Failed ↔ IsTrue (next_fails self.old.fails self.old.calls) }
    {
        if count_call(&self.fails, &mut self.calls) {
            return Err(OutsideStop::Failed);
        }
        let copied = self.staged.copy(*self.fails.allocator())?;
        self.published = Some(copied);
        Ok(())
    }
}

/// A console in memory. A put that fails writes nothing.
#[derive(Drop)]
pub struct MemConsole {
    written: Vec<u8>,
    fails: Vec<u64>,
    calls: u64,
}

impl Model for MemConsole {
    ghost use Rattle.mit_memory.specs.Memory.{ConsoleState};

    ghost Value = { ConsoleState };

    ghost view = { λ a. record {
      written = a.written.items;
      fails = a.fails.items;
      calls = a.calls;
    } };
}

impl MemConsole {
    /// A console on which nothing is written, which fails the calls of these numbers.
    pub fn new(alloc: Global, fails: Vec<u64>) -> MemConsole
        ensures { result ≡ record { written = []; fails = fails.items; calls = 0 } }
    {
        MemConsole {
            written: Vec::new(alloc),
            fails,
            calls: 0,
        }
    }

    /// How many calls were made.
    pub fn calls(&self) -> u64
        ensures calls { result ≡ self.now.calls }
        ensures none { self.now.fails ≡ [] → failures self.now.fails self.now.calls ≡ 0 }
    {
        self.calls
    }

    /// The bytes written so far.
    pub fn bytes(&self) -> &[u8]
        ensures { result.now ≡ self.now.written }
    {
        &self.written
    }
}

impl Console for MemConsole {
    ghost written = { λ s. Some s.written };

    ghost faults = { λ s. failures s.fails s.calls };

    fn put(&mut self, bytes: &[u8]) -> Result<(), OutsideStop>
        ensures ok { OnOk result (self.new.written ≡ self.old.written ++ bytes.now) }
        ensures err { OnErr result (self.new.written ≡ self.old.written) }
        ensures failed { IfErr result (λ stop. IfFailed stop (Rose
            (failures self.old.fails self.old.calls) (failures self.new.fails self.new.calls))) }
        ensures count { failures self.old.fails self.old.calls ≤ failures self.new.fails self.new.calls }
        ensures after { self.new ≡ record self.old { written = self.new.written; calls = counted self.old.calls } }
        ensures fails { IsErrOf result OutsideStop.Failed ↔ IsTrue (next_fails self.old.fails self.old.calls) }
    {
        if count_call(&self.fails, &mut self.calls) {
            return Err(OutsideStop::Failed);
        }
        self.written.extend_from_slice(bytes)?;
        Ok(())
    }
}

// Counts a call, and tells whether it is one of those that fail.
fn count_call(fails: &[u64], calls: &mut u64) -> bool
    ensures after { calls.new ≡ counted calls.old }
    ensures fails { result ≡ next_fails fails.now calls.old }
    ensures count { failures fails.now calls.old ≤ failures fails.now calls.new }
    ensures failed { IsTrue result → Rose (failures fails.now calls.old) (failures fails.now calls.new) }
{
    match calls.checked_add(1) {
        Some(number) => {
            *calls = number;
            fails.contains(&number)
        }
        None => false,
    }
}
