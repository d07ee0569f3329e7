//! The accepted script of a file.
ghost use Rattle.std.specs.Prelude.{◌≡◌, ◌≤◌, ◌⊎◌, IfErr, IfOk, IfSome};
ghost use Rattle.mit_files.specs.Files.{FileMap};
ghost use Rattle.mit_files.specs.Names.{IsLegal};
ghost use Rattle.mit_world.specs.Outside.{AsksAtMost, Rose};
ghost use Rattle.mit_shelf.specs.Shelf.{Agrees};
ghost use Rattle.mit_script.specs.Trees.{IsNumbered};
ghost use Rattle.mit_app.specs.Ends.{FindsAs, IfOutsideFailed, FindsIn};
ghost use Rattle.mit_app.specs.declared.ends.Halt.TheVariants as halt;
ghost use Rattle.mit_app.specs.declared.ends.Outside.TheVariants as outside;
ghost use Rattle.mit_app.specs.declared.ends.Refusal.TheVariants as refusal;

use crate::ends::{Halt, Outside, Refusal};
use mit_check::{CheckStop, check};
use mit_parse::{ParseStop, parse};
use mit_rows::{Text, TextRefused};
use mit_script::Typed;
use mit_shelf::{FetchFault, Name, Shelf, Stop};
use mit_world::Folder;
use std::alloc::Global;

/// The accepted script of this name.
pub(crate) fn read_script<F: Folder>(
    alloc: Global,
    name: &str,
    shelf: &mut Shelf,
    folder: &mut F,
) -> Result<Typed, Halt>
    requires { IsLegal name.now }
    ensures found { (files : FileMap) → Agrees shelf.new files → FindsAs name.now files result }
    ensures numbered { IfOk result (λ typed. IsNumbered typed.script) }
    ensures grows { (files : FileMap) → Agrees shelf.new files → Agrees shelf.old files }
    ensures agrees { IfSome (F.files folder.old) (λ files. Agrees shelf.old files → Agrees shelf.new files) }
    ensures failed { IfErr result (λ halt. IfOutsideFailed halt (Rose (F.faults folder.old) (F.faults folder.new)) ⊥ ⊥) }
    ensures told { F.files folder.new ≡ F.files folder.old }
    ensures asks { AsksAtMost name.now (F.asked folder.old) (F.asked folder.new) }
    ensures count { F.faults folder.old ≤ F.faults folder.new }
{
    match shelf.fetch(name.as_bytes(), folder) {
        Ok(place) => accepted(alloc, shelf.file_at(place)),
        Err(Stop::Fault(FetchFault::NoFile)) => Err(absent(alloc, name)),
        Err(Stop::Fault(FetchFault::BadName)) => unreachable!(),
        Err(Stop::Folder) => Err(Halt::Failed(Outside::Folder)),
        Err(Stop::NoMemory) => Err(Halt::Failed(Outside::NoMemory)),
    }
}

// There is no file of this name.
fn absent(alloc: Global, name: &str) -> Halt
    requires { IsLegal name.now }
    ensures { (result ≡ halt.Refused (refusal.Absent name.now)) ⊎ (result ≡ halt.Failed outside.NoMemory) }
{
    match Text::from_str(alloc, name) {
        Ok(text) => Halt::Refused(Refusal::Absent(Name::from_text(text))),
        Err(TextRefused::TooLong) => unreachable!(),
        Err(TextRefused::NoMemory) => Halt::Failed(Outside::NoMemory),
    }
}

// The accepted script of a text.
fn accepted(alloc: Global, text: &[u8]) -> Result<Typed, Halt>
    ensures read { FindsIn text.now result }
    ensures numbered { IfOk result (λ typed. IsNumbered typed.script) }
    ensures own { IfErr result (λ halt. IfOutsideFailed halt ⊥ ⊥ ⊥) }
{
    let script = match parse(alloc, text) {
        Ok(script) => script,
        Err(ParseStop::Fault { place }) => return Err(Halt::Refused(Refusal::Syntax(place))),
        Err(ParseStop::NoMemory) => return Err(Halt::Failed(Outside::NoMemory)),
    };
    match check(alloc, script) {
        Ok(typed) => Ok(typed),
        Err(CheckStop::Fault { statement, code }) => {
            Err(Halt::Refused(Refusal::Statement { statement, code }))
        }
        Err(CheckStop::NoMemory) => Err(Halt::Failed(Outside::NoMemory)),
    }
}
