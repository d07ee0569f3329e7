ghost use Rattle.std.specs.Prelude.{◌≡◌, ◌<◌, option_map, slice_get, IfOk, OnOk, OnErr};
ghost use Rattle.std.specs.FinMap as map;
ghost use Rattle.std.specs.Iterator.{YieldsFirstBy, item_count};

use std::alloc::{AllocError, Global};
use std::collections::{BTreeMap, btree_map};
use std::marker::Model;

/// Files by their names, in rising order of names, which contracts see as a finite map.
#[derive(Drop)]
pub struct Files {
    entries: BTreeMap<String, Vec<u8>>,
    alloc: Global,
}

impl Model for Files {
    ghost use Rattle.std.specs.Prelude.{IsTrue};
    ghost use Rattle.std.specs.FinMap as map;
    ghost use Rattle.std.specs.FinMap.{is_sorted};
    ghost use Rattle.std.specs.Coded.{coded_ℕ, coded_list};
    ghost use Rattle.mit_files.specs.Files.{FileMap, name_cmp};
    ghost use Rattle.mit_world.specs.Entries.{as_pairs};

    ghost Value = { FileMap };

    ghost coded = { map.code (coded_list coded_ℕ) (coded_list coded_ℕ) };

    ghost view = { λ a. map.from_sorted (as_pairs a.entries.entries) };

    ghost invariant = { λ a. IsTrue (is_sorted name_cmp (as_pairs a.entries.entries)) };
}

impl Files {
    /// No files.
    pub fn new(alloc: Global) -> Files
        ensures { result ≡ map.empty }
    {
        Files {
            entries: BTreeMap::new(alloc),
            alloc,
        }
    }

    /// Adds the file of this name, or replaces it.
    pub fn put(&mut self, name: &str, bytes: &[u8]) -> Result<(), AllocError>
        ensures ok { OnOk result (self.new ≡ map.insert self.old name.now bytes.now) }
        ensures err { OnErr result (self.new ≡ self.old) }
    {
        let bytes = Vec::from_slice(self.alloc, bytes)?;
        self.put_owned(name, bytes)
    }

    /// Adds the file of this name, or replaces it, and takes its bytes without a copy.
    pub fn put_owned(&mut self, name: &str, bytes: Vec<u8>) -> Result<(), AllocError>
        ensures ok { OnOk result (self.new ≡ map.insert self.old name.now bytes.items) }
        ensures err { OnErr result (self.new ≡ self.old) }
    {
        let name = String::from_str(self.alloc, name)?;
        self.entries.insert(name, bytes)?;
        Ok(())
    }

    /// The bytes of the file of this name, or none where there is no such file.
    pub fn get(&self, name: &str) -> Option<&[u8]>
        ensures { option_map (λ bytes. bytes.now) result ≡ map.get self.now name.now }
    {
        match self.entries.get(name) {
            Some(bytes) => Some(bytes.as_slice()),
            None => None,
        }
    }

    /// How many files there are.
    pub fn len(&self) -> u64
        ensures { result ≡ map.len self.now }
    {
        self.entries.len() as u64
    }

    /// The files in rising order of names, each as its name and its bytes.
    pub fn iter(&self) -> FilesIter<'_>
        ensures { result ≡ map.entries self.now }
    {
        FilesIter {
            left: self.entries.iter(),
        }
    }

    /// The name of the file at place `k` in rising order of names, from 0. It passes over the files before; a loop over
    /// all files takes `iter`.
    pub fn name_at(&self, k: u64) -> &str
        requires { k < map.len self.now }
        ensures { slice_get (map.keys self.now) k ≡ Some result.now }
    {
        let (name, _) = self.file_at(k);
        name
    }

    /// The bytes of the file at place `k` in rising order of names, from 0. It passes over the files before; a loop
    /// over all files takes `iter`.
    pub fn bytes_at(&self, k: u64) -> &[u8]
        requires { k < map.len self.now }
        ensures { slice_get (map.values self.now) k ≡ Some result.now }
    {
        let (_, bytes) = self.file_at(k);
        bytes
    }

    fn file_at(&self, k: u64) -> (&str, &[u8])
        requires { k < map.len self.now }
        ensures { slice_get (map.entries self.now) k ≡ Some (result.0.now, result.1.now) }
    {
        self.iter().nth(k as usize).unwrap()
    }

    /// The same files once more.
    pub fn copy(&self, alloc: Global) -> Result<Files, AllocError>
        ensures { IfOk result (λ other. other ≡ self.now) }
    {
        Ok(Files {
            entries: self.entries.clone()?,
            alloc,
        })
    }
}

/// The files that are left of those that `Files::iter` goes over, which contracts see as the list of their names and
/// bytes.
#[derive(Drop)]
pub struct FilesIter<'a> {
    left: btree_map::Iter<'a, String, Vec<u8>>,
}

impl<'a> Model for FilesIter<'a> {
    ghost use Rattle.std.specs.Prelude.{ℕ, List};
    ghost use Rattle.mit_world.specs.Entries.{as_pairs};

    ghost Value = { List (List ℕ × List ℕ) };

    ghost view = { λ a. as_pairs a.left };
}

impl<'a> Iterator for FilesIter<'a> {
    type Item = (&'a str, &'a [u8]);

    ghost next_gives = { YieldsFirstBy (λ file. (file.0.now, file.1.now)) (λ left. left) };

    ghost remaining = { item_count (λ left. left) };

    fn next(&mut self) -> Option<(&'a str, &'a [u8])> {
        match self.left.next() {
            Some((name, bytes)) => Some((name.as_str(), bytes.as_slice())),
            None => None,
        }
    }
}
