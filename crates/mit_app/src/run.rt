//! Running an accepted script as a job.
ghost use Rattle.std.specs.Prelude.{◌≡◌, ◌≤◌, IfErr, IfOk, IfSome, string_bytes};
ghost use Rattle.std.specs.FinMap as fin;
ghost use Rattle.mit_files.specs.Files.{FileMap};
ghost use Rattle.mit_world.specs.Outside.{Rose};
ghost use Rattle.mit_shelf.specs.Shelf.{Agrees};
ghost use Rattle.mit_script.specs.Trees.{IsNumbered};
ghost use Rattle.mit_words.specs.declared.words.Task.TheVariants as task;
ghost use Rattle.mit_app.specs.Ends.{IfOutsideFailed, RunsAs};
ghost use Rattle.mit_app.specs.Lines.{report_line};

use crate::ends::{Halt, Outside, Refusal};
use crate::lines::report;
use crate::publish::Ran;
use mit_engine::{Done, Schedule, run_thin};
use mit_script::Typed;
use mit_shelf::{Shelf, Stop};
use mit_thin::laws::thin_law;
use mit_thin::thin_of;
use mit_world::Folder;
use std::alloc::{AllocError, Global};

/// What a run of the script under this schedule leaves.
pub(crate) fn run<S: Schedule, F: Folder>(
    alloc: Global,
    typed: &Typed,
    schedule: &mut S,
    shelf: &mut Shelf,
    folder: &mut F,
) -> Result<Ran, Halt>
    requires { IsNumbered typed.now.script }
    ensures ran { (files : FileMap) → Agrees shelf.new files → RunsAs task.Run typed.now.script typed.now.types files result }
    ensures grows { (files : FileMap) → Agrees shelf.new files → Agrees shelf.old files }
    ensures agrees { IfSome (F.files folder.old) (λ files. Agrees shelf.old files → Agrees shelf.new files) }
    ensures failed { IfErr result (λ halt. IfOutsideFailed halt (Rose (F.faults folder.old) (F.faults folder.new)) ⊥ ⊥) }
    ensures told { F.files folder.new ≡ F.files folder.old }
    ensures count { F.faults folder.old ≤ F.faults folder.new }
{
    thin_law();
    let script = match thin_of(alloc, typed.script()) {
        Ok(Some(script)) => script,
        Ok(None) => return Err(Halt::Refused(Refusal::NotThin)),
        Err(_) => return Err(Halt::Failed(Outside::NoMemory)),
    };
    match run_thin(alloc, &script, shelf, folder, schedule) {
        Ok(done) => match told(alloc, done) {
            Ok(ran) => Ok(ran),
            Err(_) => Err(Halt::Failed(Outside::NoMemory)),
        },
        Err(Stop::Fault(fault)) => Err(Halt::Refused(Refusal::Fault(fault))),
        Err(Stop::Folder) => Err(Halt::Failed(Outside::Folder)),
        Err(Stop::NoMemory) => Err(Halt::Failed(Outside::NoMemory)),
    }
}

// Its files and the report.
fn told(alloc: Global, done: Done) -> Result<Ran, AllocError>
    ensures files { IfOk result (λ ran. ran.files ≡ done.files) }
    ensures report { IfOk result (λ ran. string_bytes ran.report ≡ report_line (fin.len done.files) done.blocks done.actions) }
{
    let report = report(alloc, done.files.len(), done.blocks, done.actions)?;
    Ok(Ran {
        files: done.files,
        report,
    })
}
