ghost use Rattle.std.specs.Prelude.{◌≡◌, ◌≢◌, ◌≤◌, ◌⊎◌, ℕ, List, IfErr, IfSome, OnErr};
ghost use Rattle.mit_files.specs.Files.{FileMap};
ghost use Rattle.mit_files.specs.Names.{IsLegal};
ghost use Rattle.mit_world.specs.Outside.{AsksAtMost, Continues, Rose};
ghost use Rattle.mit_shelf.specs.Shelf.{Agrees};
ghost use Rattle.mit_shelf.specs.Staging.{published_in};
ghost use Rattle.mit_script.specs.Trees.{IsNumbered};
ghost use Rattle.mit_words.specs.Words.{IsCheck, IsCheckOrPlan, IsPlan, IsUsage, texts};
ghost use Rattle.mit_app.specs.Answers.{Answers, Gains, TellsFiles};
ghost use Rattle.mit_app.specs.Ends.{Ends, IfOutsideFailed, IfLine, IsShowing, RunsAs, halt_line, halt_status, task_within};
ghost use Rattle.mit_app.specs.Lines.{outside_line, refusal_line};
ghost use Rattle.mit_app.specs.Statuses.{IsUnstaged};
ghost use Rattle.mit_app.specs.declared.ends.Outside.TheVariants as outside;
ghost use Rattle.mit_app.specs.declared.ends.Refusal.TheVariants as refusal;

use crate::check::check_and_show;
use crate::ends::{Halt, Outside, Refusal};
use crate::lines::halted;
use crate::plan::plan_and_show;
use crate::publish::{Ran, publish};
use crate::run::run;
use crate::script::read_script;
use crate::step::step;
use mit_engine::Seeded;
use mit_parse::laws::one_reading;
use mit_script::Typed;
use mit_shelf::Shelf;
use mit_shelf::laws::shelves_agree_with_their_files;
use mit_words::{Task, command_of};
use mit_world::{Console, Folder, Outbox, OutsideStop};
use std::alloc::Global;

/// Runs the command that the words are, over this folder, outbox and console, and answers the program's status:
///
/// - 0: the script's files are published, and the console has gained the report; or that the script is accepted, or its plan, is shown;
/// - 1: the script is at fault;
/// - 2: the words are not `run SCRIPT --parts 1`, `step SCRIPT`, `step SCRIPT --decisions N`, `check SCRIPT`, `check SCRIPT --print` or
///   `plan SCRIPT`, with a legal file name and a number from 1 to 1,000,000;
/// - 3: no script is spelled, the check refuses a statement, the script is to be run and cannot be run yet, or its plan is too large;
/// - 4, 5, 6: the folder, the outbox or the console failed;
/// - 7: memory ran out;
/// - 9: the folder has no such script.
///
/// At every status but 0 nothing is published, and one line tells why; at 6 and 7 it may be missing. A check and a plan publish nothing,
/// and read no file but the script.
/// Until it can be given, the seed of the schedule is 0.
pub fn mitos<F: Folder, O: Outbox, C: Console>(
    alloc: Global,
    words: &[String],
    folder: &mut F,
    outbox: &mut O,
    console: &mut C,
) -> u8
    // There are files, those that the folder tells where it tells any, over which the call answers what is due.
    ensures answers { (files : FileMap) × TellsFiles (F.files folder.old) files
        × Answers O.held (texts words.now) files result outbox.old outbox.new (C.written console.old) (C.written console.new) }

    // At every status but 0 nothing is published, and before staging the outbox is not called.
    ensures unpublished { result ≢ 0 → published_in (O.held outbox.new) ≡ published_in (O.held outbox.old) }
    ensures uncalled { IsUnstaged result → outbox.new ≡ outbox.old }

    // A check and a plan leave the outbox as it was.
    ensures checked { IsCheck (texts words.now) → outbox.new ≡ outbox.old }
    ensures planned { IsPlan (texts words.now) → outbox.new ≡ outbox.old }

    // They ask the folder for the script once at most, and for nothing else.
    ensures asks_script { (script : List ℕ) → IsCheckOrPlan (texts words.now) script
        → AsksAtMost script (F.asked folder.old) (F.asked folder.new) }

    // Each fault of the outside has its cause in this call; that of the folder has its line.
    ensures folder_failed { result ≡ 4 → Rose (F.faults folder.old) (F.faults folder.new) }
    ensures outbox_failed { result ≡ 5 → Rose (O.faults outbox.old) (O.faults outbox.new) }
    ensures console_failed { result ≡ 6 → Rose (C.faults console.old) (C.faults console.new) }
    ensures folder_told { result ≡ 4 → Gains (outside_line outside.Folder) (C.written console.old) (C.written console.new) }
    ensures continues { Continues (C.written console.old) (C.written console.new) }

    // The words alone decide on the usage line, and then folder and outbox are as they were.
    ensures usage { result ≡ 2 → IsUsage (texts words.now) × Gains (refusal_line refusal.Usage) (C.written console.old) (C.written console.new) }
    ensures no_command { IsUsage (texts words.now)
        → ((result ≡ 2) ⊎ (result ≡ 6) ⊎ (result ≡ 7)) × (folder.new ≡ folder.old) × (outbox.new ≡ outbox.old) }

    // What the folder tells stays, and no count of faults falls.
    ensures told { F.files folder.new ≡ F.files folder.old }
    ensures folder_count { F.faults folder.old ≤ F.faults folder.new }
    ensures outbox_count { O.faults outbox.old ≤ O.faults outbox.new }
    ensures console_count { C.faults console.old ≤ C.faults console.new }
{
    one_reading();
    shelves_agree_with_their_files();
    let Some((task, name)) = command_of(words) else {
        return tell(alloc, &Halt::Refused(Refusal::Usage), console);
    };
    let mut shelf = Shelf::new(alloc);
    match perform(alloc, task, name, &mut shelf, folder, outbox, console) {
        Ok(()) => 0,
        Err(halt) => tell(alloc, &halt, console),
    }
}

// Does the task with the script of this name.
fn perform<F: Folder, O: Outbox, C: Console>(
    alloc: Global,
    task: Task,
    name: &str,
    shelf: &mut Shelf,
    folder: &mut F,
    outbox: &mut O,
    console: &mut C,
) -> Result<(), Halt>
    requires { IsLegal name.now }
    ensures ends { (files : FileMap) → Agrees shelf.new files
        → Ends O.held task name.now files outbox.old outbox.new (C.written console.old) (C.written console.new) result }
    ensures unpublished { OnErr result (published_in (O.held outbox.new) ≡ published_in (O.held outbox.old)) }
    ensures shown { IsShowing task → outbox.new ≡ outbox.old }
    ensures asks { IsShowing task → AsksAtMost name.now (F.asked folder.old) (F.asked folder.new) }
    ensures agrees { IfSome (F.files folder.old) (λ files. Agrees shelf.old files → Agrees shelf.new files) }
    ensures failed { IfErr result (λ halt. IfOutsideFailed halt (Rose (F.faults folder.old) (F.faults folder.new))
        (Rose (O.faults outbox.old) (O.faults outbox.new)) (Rose (C.faults console.old) (C.faults console.new))) }
    ensures continues { Continues (C.written console.old) (C.written console.new) }
    ensures told { F.files folder.new ≡ F.files folder.old }
    ensures folder_count { F.faults folder.old ≤ F.faults folder.new }
    ensures outbox_count { O.faults outbox.old ≤ O.faults outbox.new }
    ensures console_count { C.faults console.old ≤ C.faults console.new }
{
    match task {
        Task::Run => run_and_publish(alloc, name, None, shelf, folder, outbox, console),
        Task::Step { decisions } => {
            run_and_publish(alloc, name, Some(decisions), shelf, folder, outbox, console)
        }
        Task::Check { print } => check_and_show(alloc, name, print, shelf, folder, console),
        Task::Plan => plan_and_show(alloc, name, shelf, folder, console),
    }
}

// Runs the script of this name as a job, or with a limit of decisions step by step, and publishes its files.
fn run_and_publish<F: Folder, O: Outbox, C: Console>(
    alloc: Global,
    name: &str,
    limit: Option<u32>,
    shelf: &mut Shelf,
    folder: &mut F,
    outbox: &mut O,
    console: &mut C,
) -> Result<(), Halt>
    requires { IsLegal name.now }
    ensures ends { (files : FileMap) → Agrees shelf.new files
        → Ends O.held (task_within limit) name.now files outbox.old outbox.new (C.written console.old) (C.written console.new) result }
    ensures unpublished { OnErr result (published_in (O.held outbox.new) ≡ published_in (O.held outbox.old)) }
    ensures agrees { IfSome (F.files folder.old) (λ files. Agrees shelf.old files → Agrees shelf.new files) }
    ensures failed { IfErr result (λ halt. IfOutsideFailed halt (Rose (F.faults folder.old) (F.faults folder.new))
        (Rose (O.faults outbox.old) (O.faults outbox.new)) (Rose (C.faults console.old) (C.faults console.new))) }
    ensures continues { Continues (C.written console.old) (C.written console.new) }
    ensures told { F.files folder.new ≡ F.files folder.old }
    ensures folder_count { F.faults folder.old ≤ F.faults folder.new }
    ensures outbox_count { O.faults outbox.old ≤ O.faults outbox.new }
    ensures console_count { C.faults console.old ≤ C.faults console.new }
{
    let typed = match read_script(alloc, name, shelf, folder) {
        Ok(typed) => typed,
        Err(halt) => return Err(halt),
    };
    let ran = match run_within(alloc, limit, &typed, shelf, folder) {
        Ok(ran) => ran,
        Err(halt) => return Err(halt),
    };
    publish(&ran, outbox, console)
}

// Runs an accepted script as a job, or with a limit of decisions step by step.
fn run_within<F: Folder>(
    alloc: Global,
    limit: Option<u32>,
    typed: &Typed,
    shelf: &mut Shelf,
    folder: &mut F,
) -> Result<Ran, Halt>
    requires { IsNumbered typed.now.script }
    ensures ran { (files : FileMap) → Agrees shelf.new files
        → RunsAs (task_within limit) typed.now.script typed.now.types files result }
    ensures grows { (files : FileMap) → Agrees shelf.new files → Agrees shelf.old files }
    ensures agrees { IfSome (F.files folder.old) (λ files. Agrees shelf.old files → Agrees shelf.new files) }
    ensures failed { IfErr result (λ halt. IfOutsideFailed halt (Rose (F.faults folder.old) (F.faults folder.new)) ⊥ ⊥) }
    ensures told { F.files folder.new ≡ F.files folder.old }
    ensures count { F.faults folder.old ≤ F.faults folder.new }
{
    match limit {
        None => run(alloc, typed, &mut Seeded::new(alloc, 0), shelf, folder),
        Some(decisions) => step(alloc, typed, decisions, shelf, folder),
    }
}

// Puts the line that tells why a call did not come to its end, and answers the status.
fn tell<C: Console>(alloc: Global, halt: &Halt, console: &mut C) -> u8
    ensures status { (result ≡ halt_status halt.now) ⊎ (result ≡ 6) ⊎ (result ≡ 7) }
    ensures told { result ≡ halt_status halt.now → IfLine halt.now (Gains (halt_line halt.now) (C.written console.old) (C.written console.new)) }
    ensures failed { result ≡ 6 → (halt.now ≡ Halt.Failed Outside.Console) ⊎ Rose (C.faults console.old) (C.faults console.new) }
    ensures continues { Continues (C.written console.old) (C.written console.new) }
    ensures count { C.faults console.old ≤ C.faults console.new }
{
    if let Halt::Failed(Outside::Console) = halt {
        return 6;
    }
    match halted(alloc, halt) {
        Ok(text) => put(text.as_bytes(), halt.status(), console),
        Err(_) => put(b"out of memory\n", 7, console),
    }
}

// Puts one line, and answers this status.
fn put<C: Console>(line: &[u8], status: u8, console: &mut C) -> u8
    ensures status { (result ≡ status) ⊎ (result ≡ 6) ⊎ (result ≡ 7) }
    ensures told { status ≢ 6 → status ≢ 7 → result ≡ status → Gains line.now (C.written console.old) (C.written console.new) }
    ensures failed { status ≢ 6 → result ≡ 6 → Rose (C.faults console.old) (C.faults console.new) }
    ensures continues { Continues (C.written console.old) (C.written console.new) }
    ensures count { C.faults console.old ≤ C.faults console.new }
{
    match console.put(line) {
        Ok(()) => status,
        Err(OutsideStop::Failed) => 6,
        Err(OutsideStop::NoMemory) => 7,
    }
}
