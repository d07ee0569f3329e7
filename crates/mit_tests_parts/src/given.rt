//! What the tests are given: files and a folder in memory, and names.
ghost use Rattle.mit_files.specs.Names.{IsLegal};

use mit_memory::MemFolder;
use mit_rows::Text;
use mit_shelf::{Name, legal_name};
use mit_world::Files;
use std::process::Abort;

/// A name and its bytes, with `=` between.
fn put(rt: &impl Abort, files: &mut Files, row: &str) {
    if let Some((name, bytes)) = row.split_once("=") {
        files.put(name, bytes.as_bytes()).expect(rt, "memory");
    }
}

/// The files of these rows, with `;` between.
pub(crate) fn files_of(rt: &(impl Abort + AllocGlobal), rows: &str) -> Files {
    let mut files = Files::new(rt.alloc());
    for row in rows.split(";") {
        put(rt, &mut files, row);
    }
    files
}

/// A folder of these files, which fails the calls of these numbers.
pub(crate) fn folder_of(rt: &(impl Abort + AllocGlobal), rows: &str, fails: &[u64]) -> MemFolder {
    let fails = Vec::from_slice(rt.alloc(), fails).expect(rt, "memory");
    MemFolder::new(files_of(rt, rows), fails)
}

/// A legal name of this text.
pub(crate) fn name_of(rt: &(impl Abort + AllocGlobal), text: &str) -> Name
    ensures { IsLegal result }
{
    assert!(rt; legal_name(text.as_bytes()));
    Name::from_text(Text::from_str(rt.alloc(), text).expect(rt, "a short text"))
}
