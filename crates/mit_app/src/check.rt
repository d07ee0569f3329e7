//! The command `check`.
ghost use Rattle.std.specs.Prelude.{◌≡◌, ◌≤◌, ◌++◌, [], if◌then◌else◌, IfErr, IfOk, IfSome};
ghost use Rattle.mit_files.specs.Files.{FileMap};
ghost use Rattle.mit_files.specs.Names.{IsLegal};
ghost use Rattle.mit_world.specs.Outside.{AsksAtMost, Continues, Rose};
ghost use Rattle.mit_shelf.specs.Shelf.{Agrees};
ghost use Rattle.mit_script.specs.Trees.{IsFormed, statements_of};
ghost use Rattle.mit_print.specs.Printed.{printed};
ghost use Rattle.mit_words.specs.declared.words.Task.TheVariants as task;
ghost use Rattle.mit_app.specs.Ends.{IfOutsideFailed, ShowsAs};
ghost use Rattle.mit_app.specs.Lines.{accepted_line};

use crate::ends::{Halt, Outside};
use crate::lines::acceptance;
use crate::script::read_script;
use crate::show::show;
use mit_print::print;
use mit_script::{Script, statements};
use mit_shelf::Shelf;
use mit_world::{Console, Folder};
use std::alloc::{AllocError, Global};

/// What is shown of an accepted script: its number of statements, and the printed script where it is asked for.
fn acceptance_text(alloc: Global, script: &Script, print_it: bool) -> Result<Vec<u8>, AllocError>
    requires { IsFormed script.now }
    ensures { IfOk result (λ text. text.items
        ≡ accepted_line (statements_of script.now) ++ (if print_it then printed script.now else [])) }
{
    let line = acceptance(alloc, statements(script))?;
    let mut text = Vec::from_slice(alloc, line.as_bytes())?;
    if print_it {
        let printed = print(alloc, script)?;
        text.extend_from_slice(&printed)?;
    }
    Ok(text)
}

/// Fetches and checks the script of this name, and shows that it is accepted.
pub(crate) fn check_and_show<F: Folder, C: Console>(
    alloc: Global,
    name: &str,
    print_it: bool,
    shelf: &mut Shelf,
    folder: &mut F,
    console: &mut C,
) -> Result<(), Halt>
    requires { IsLegal name.now }
    ensures shown { (files : FileMap) → Agrees shelf.new files
        → ShowsAs (task.Check print_it) name.now files (C.written console.old) (C.written console.new) result }
    ensures grows { (files : FileMap) → Agrees shelf.new files → Agrees shelf.old files }
    ensures agrees { IfSome (F.files folder.old) (λ files. Agrees shelf.old files → Agrees shelf.new files) }
    ensures failed { IfErr result (λ halt. IfOutsideFailed halt (Rose (F.faults folder.old) (F.faults folder.new))
        ⊥ (Rose (C.faults console.old) (C.faults console.new))) }
    ensures continues { Continues (C.written console.old) (C.written console.new) }
    ensures told { F.files folder.new ≡ F.files folder.old }
    ensures asks { AsksAtMost name.now (F.asked folder.old) (F.asked folder.new) }
    ensures folder_count { F.faults folder.old ≤ F.faults folder.new }
    ensures console_count { C.faults console.old ≤ C.faults console.new }
{
    let typed = match read_script(alloc, name, shelf, folder) {
        Ok(typed) => typed,
        Err(halt) => return Err(halt),
    };
    match acceptance_text(alloc, typed.script(), print_it) {
        Ok(text) => show(&text, console),
        Err(_) => Err(Halt::Failed(Outside::NoMemory)),
    }
}
