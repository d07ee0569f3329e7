//! Running an accepted script step by step.
ghost use Rattle.std.specs.Prelude.{◌≡◌, ◌≤◌, IfErr, IfOk, IfSome, string_bytes};
ghost use Rattle.std.specs.FinMap as fin;
ghost use Rattle.mit_files.specs.Files.{FileMap};
ghost use Rattle.mit_world.specs.Outside.{Rose};
ghost use Rattle.mit_shelf.specs.Shelf.{Agrees};
ghost use Rattle.mit_words.specs.declared.words.Task.TheVariants as task;
ghost use Rattle.mit_app.specs.Ends.{IfOutsideFailed, RunsAs};
ghost use Rattle.mit_app.specs.Lines.{step_line};

use crate::ends::{Halt, Outside, Refusal};
use crate::lines::step_report;
use crate::publish::Ran;
use mit_script::Typed;
use mit_shelf::{Shelf, Stop};
use mit_step::{Stepped, step_run};
use mit_world::Folder;
use std::alloc::{AllocError, Global};

/// What a run of the script with at most so many decisions leaves.
pub(crate) fn step<F: Folder>(
    alloc: Global,
    typed: &Typed,
    decisions: u32,
    shelf: &mut Shelf,
    folder: &mut F,
) -> Result<Ran, Halt>
    ensures ran { (files : FileMap) → Agrees shelf.new files → RunsAs (task.Step decisions) typed.now.script typed.now.types files result }
    ensures grows { (files : FileMap) → Agrees shelf.new files → Agrees shelf.old files }
    ensures agrees { IfSome (F.files folder.old) (λ files. Agrees shelf.old files → Agrees shelf.new files) }
    ensures failed { IfErr result (λ halt. IfOutsideFailed halt (Rose (F.faults folder.old) (F.faults folder.new)) ⊥ ⊥) }
    ensures told { F.files folder.new ≡ F.files folder.old }
    ensures count { F.faults folder.old ≤ F.faults folder.new }
{
    match step_run(alloc, typed, decisions, shelf, folder) {
        Ok(stepped) => match told(alloc, stepped) {
            Ok(ran) => Ok(ran),
            Err(_) => Err(Halt::Failed(Outside::NoMemory)),
        },
        Err(Stop::Fault(fault)) => Err(Halt::Refused(Refusal::Fault(fault))),
        Err(Stop::Folder) => Err(Halt::Failed(Outside::Folder)),
        Err(Stop::NoMemory) => Err(Halt::Failed(Outside::NoMemory)),
    }
}

// Its files and the report.
fn told(alloc: Global, stepped: Stepped) -> Result<Ran, AllocError>
    ensures files { IfOk result (λ ran. ran.files ≡ stepped.files) }
    ensures report { IfOk result (λ ran. string_bytes ran.report ≡ step_line (fin.len stepped.files) stepped.decisions) }
{
    let report = step_report(alloc, stepped.files.len(), stepped.decisions)?;
    Ok(Ran {
        files: stepped.files,
        report,
    })
}
