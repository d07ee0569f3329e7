//! The shelf of what was read of a folder, which asks for each name once.
ghost use Rattle.std.specs.Prelude.{◌≡◌, ◌≢◌, ◌≤◌, ◌↔◌, [], Some, None, true, false, IfErr, IfOk, IfSome, IsSome, OnErr, option_map};
ghost use Rattle.mit_files.specs.Files.{FileMap};
ghost use Rattle.mit_files.specs.Names.{is_legal};
ghost use Rattle.mit_world.specs.Outside.{AsksAtMost, Rose};
ghost use Rattle.mit_shelf.specs.Stops.{IfFolder};
ghost use Rattle.mit_shelf.specs.Stored.{KeepsLast};
ghost use Rattle.mit_shelf.specs.Shelf.{Agrees, FetchesAs, bytes_at, kept, kept_bytes};

use crate::names::legal_name;
use crate::stop::Stop;
use indexmap::IndexMap;
use mit_world::{Folder, OutsideStop};
use std::alloc::{AllocError, Global};
use std::marker::Model;

/// Why a name was not found.
#[derive(Clone, Copy, Debug, PartialEq, Eq)]
pub enum FetchFault {
    /// It is no legal name.
    BadName,
    /// The folder has no such file.
    NoFile,
}

/// What was read of a folder. Each name is asked for once: from then on it is kept as it was found, with its bytes or
/// as absent.
#[derive(Drop)]
pub struct Shelf {
    alloc: Global,
    files: IndexMap<Vec<u8>, Option<Vec<u8>>>,
}

impl Model for Shelf {
    ghost use Rattle.mit_shelf.specs.Shelf.{Kept};
    ghost use Rattle.mit_shelf.specs.Stored.{entries_of};

    ghost Value = { Kept };

    ghost view = { λ shelf. entries_of shelf.files.entries };
}

impl Shelf {
    /// A shelf that keeps no name.
    pub fn new(alloc: Global) -> Shelf
        ensures { result ≡ [] }
    {
        Shelf {
            alloc,
            files: IndexMap::new(alloc),
        }
    }

    /// Sees that the file of this name is kept, and answers its place on the shelf. A name that is kept already, or that
    /// is not legal, leaves the folder as it is.
    pub fn fetch<F: Folder>(
        &mut self,
        name: &[u8],
        folder: &mut F,
    ) -> Result<usize, Stop<FetchFault>>
        ensures fetched { FetchesAs self.old self.new name.now (F.files folder.old) result }
        ensures bad_name { (result ≡ Err (Stop.Fault FetchFault.BadName)) ↔ (is_legal name.now ≡ false) }

        // Only this name is asked for, and each name once.
        ensures asks { AsksAtMost name.now (F.asked folder.old) (F.asked folder.new) }
        ensures asks_once { IsSome (kept self.old name.now) → folder.new ≡ folder.old }
        ensures illegal { is_legal name.now ≡ false → folder.new ≡ folder.old }

        // What is kept stays kept, and a shelf that agreed with the told files still does.
        ensures grows { (files : FileMap) → Agrees self.new files → Agrees self.old files }
        ensures agrees { IfSome (F.files folder.old) (λ files. Agrees self.old files → Agrees self.new files) }

        // The folder.
        ensures failed { IfErr result (λ stop. IfFolder stop (Rose (F.faults folder.old) (F.faults folder.new))) }
        ensures told { F.files folder.new ≡ F.files folder.old }
        ensures count { F.faults folder.old ≤ F.faults folder.new }
    {
        if !legal_name(name) {
            return Err(Stop::Fault(FetchFault::BadName));
        }
        match self.files.get_full(name) {
            Some((place, _, Some(_))) => Ok(place),
            Some((_, _, None)) => Err(Stop::Fault(FetchFault::NoFile)),
            None => self.ask(name, folder),
        }
    }

    // Asks the folder for a name that is not kept.
    fn ask<F: Folder>(&mut self, name: &[u8], folder: &mut F) -> Result<usize, Stop<FetchFault>>
        requires absent { kept self.old name.now ≡ None }
        requires legal { is_legal name.now ≡ true }
        ensures fetched { FetchesAs self.old self.new name.now (F.files folder.old) result }
        ensures legal { result ≢ Err (Stop.Fault FetchFault.BadName) }
        ensures asks { AsksAtMost name.now (F.asked folder.old) (F.asked folder.new) }
        ensures failed { IfErr result (λ stop. IfFolder stop (Rose (F.faults folder.old) (F.faults folder.new))) }
        ensures told { F.files folder.new ≡ F.files folder.old }
        ensures count { F.faults folder.old ≤ F.faults folder.new }
    {
        let Ok(text) = str::from_utf8(name) else {
            unreachable!();
        };
        let mut bytes = Vec::new(self.alloc);
        match folder.read(text, &mut bytes) {
            Ok(true) => Ok(self.keep(name, Some(bytes))?),
            Ok(false) => {
                self.keep(name, None)?;
                Err(Stop::Fault(FetchFault::NoFile))
            }
            Err(OutsideStop::Failed) => Err(Stop::Folder),
            Err(OutsideStop::NoMemory) => Err(Stop::NoMemory),
        }
    }

    // Keeps a name that is not kept.
    fn keep(&mut self, name: &[u8], file: Option<Vec<u8>>) -> Result<usize, AllocError>
        requires { kept self.old name.now ≡ None }
        ensures ok { IfOk result (KeepsLast self.old self.new name.now (option_map (λ bytes. bytes.items) file)) }
        ensures err { OnErr result (self.new ≡ self.old) }
    {
        let name = Vec::from_slice(self.alloc, name)?;
        let place = self.files.len();
        self.files.insert(name, file)?;
        Ok(place)
    }

    /// The bytes of the file that was found for the name at this place.
    pub fn file_at(&self, place: usize) -> &[u8]
        requires { IsSome (bytes_at self.now place) }
        ensures { bytes_at self.now place ≡ Some result.now }
    {
        match self.files.get_index(place) {
            Some((_, Some(bytes))) => bytes.as_slice(),
            _ => unreachable!(),
        }
    }

    /// The bytes of the file of this name, where it is kept as found.
    pub fn text(&self, name: &[u8]) -> Option<&[u8]>
        ensures { option_map (λ bytes. bytes.now) result ≡ kept_bytes self.now name.now }
    {
        match self.files.get(name) {
            Some(Some(bytes)) => Some(bytes.as_slice()),
            Some(None) => None,
            None => None,
        }
    }
}
