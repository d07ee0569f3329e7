//! The command `plan`.
ghost use Rattle.std.specs.Prelude.{◌≡◌, ◌<◌, ◌≤◌, ℕ, IfErr, IfOk, IfSome};
ghost use Rattle.mit_files.specs.Files.{FileMap};
ghost use Rattle.mit_files.specs.Names.{IsLegal};
ghost use Rattle.mit_world.specs.Outside.{AsksAtMost, Continues, Rose};
ghost use Rattle.mit_shelf.specs.Shelf.{Agrees};
ghost use Rattle.mit_script.specs.Execution.{exec};
ghost use Rattle.mit_plan.specs.Meant.{meant};
ghost use Rattle.mit_ssa.specs.PlanFor.{plan_for};
ghost use Rattle.mit_words.specs.declared.words.Task.TheVariants as task;
ghost use Rattle.mit_app.specs.Due.{Shows, plan_verdict};
ghost use Rattle.mit_app.specs.Ends.{IfOutsideFailed, PlanHalts, ShowsAs};

use crate::ends::{Halt, Outside, Refusal};
use crate::script::read_script;
use crate::show::show;
use mit_meaning::laws::meaning_law;
use mit_plan::print_plan;
use mit_script::Typed;
use mit_shelf::Shelf;
use mit_ssa::{PlanStop, plan_of};
use mit_world::{Console, Folder};
use std::alloc::Global;

/// The plan of an accepted script means what the script does, over any files, for every limit of decisions and in any number
/// of partitions.
fn plan_means(typed: &Typed)
    ensures { (files : FileMap) (decisions partitions : ℕ) → 0 < partitions
        → meant (plan_for typed.now.script typed.now.types) files decisions partitions
        ≡ exec typed.now.script files decisions }
{
    meaning_law();
    let _script = typed.script();
    let _types = typed.types();
}

/// The text of the plan of an accepted script, which means what the script does.
fn plan_text(alloc: Global, typed: &Typed) -> Result<Vec<u8>, Halt>
    ensures text { IfOk result (λ text. plan_verdict (plan_for typed.now.script typed.now.types) ≡ Shows text.items) }
    ensures halted { IfErr result (PlanHalts (plan_for typed.now.script typed.now.types)) }
    ensures means { (files : FileMap) (decisions partitions : ℕ) → 0 < partitions
        → meant (plan_for typed.now.script typed.now.types) files decisions partitions
        ≡ exec typed.now.script files decisions }
{
    plan_means(typed);
    let plan = match plan_of(alloc, typed) {
        Ok(plan) => plan,
        Err(PlanStop::TooLarge) => return Err(Halt::Refused(Refusal::TooLarge)),
        Err(PlanStop::NoMemory) => return Err(Halt::Failed(Outside::NoMemory)),
    };
    match print_plan(alloc, &plan) {
        Ok(text) => Ok(text),
        Err(_) => Err(Halt::Failed(Outside::NoMemory)),
    }
}

/// Fetches and checks the script of this name, and shows its plan.
pub(crate) fn plan_and_show<F: Folder, C: Console>(
    alloc: Global,
    name: &str,
    shelf: &mut Shelf,
    folder: &mut F,
    console: &mut C,
) -> Result<(), Halt>
    requires { IsLegal name.now }
    ensures shown { (files : FileMap) → Agrees shelf.new files
        → ShowsAs task.Plan name.now files (C.written console.old) (C.written console.new) result }
    ensures grows { (files : FileMap) → Agrees shelf.new files → Agrees shelf.old files }
    ensures agrees { IfSome (F.files folder.old) (λ files. Agrees shelf.old files → Agrees shelf.new files) }
    ensures failed { IfErr result (λ halt. IfOutsideFailed halt (Rose (F.faults folder.old) (F.faults folder.new))
        ⊥ (Rose (C.faults console.old) (C.faults console.new))) }
    ensures continues { Continues (C.written console.old) (C.written console.new) }
    ensures told { F.files folder.new ≡ F.files folder.old }
    ensures asks { AsksAtMost name.now (F.asked folder.old) (F.asked folder.new) }
    ensures folder_count { F.faults folder.old ≤ F.faults folder.new }
    ensures console_count { C.faults console.old ≤ C.faults console.new }
{
    let typed = match read_script(alloc, name, shelf, folder) {
        Ok(typed) => typed,
        Err(halt) => return Err(halt),
    };
    match plan_text(alloc, &typed) {
        Ok(text) => show(&text, console),
        Err(halt) => Err(halt),
    }
}
