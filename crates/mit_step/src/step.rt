//! A script, run statement by statement.
ghost use Rattle.std.specs.Prelude.{◌≡◌, ◌≤◌, ◌+◌, List, [], ◌∷◌, length, map, IfErr, IfSome, OnOk};
ghost use Rattle.mit_files.specs.Files.{FileMap};
ghost use Rattle.mit_world.specs.Outside.{Rose};
ghost use Rattle.mit_shelf.specs.Shelf.{Agrees};
ghost use Rattle.mit_shelf.specs.Stops.{IfFolder};
ghost use Rattle.mit_ops.specs.declared.types.VarType.{VarType};
ghost use Rattle.mit_lex.specs.declared.limits.TheConstants.{MAX_SCRIPT};
ghost use Rattle.mit_script.specs.Accepted.{Known};
ghost use Rattle.mit_script.specs.Execution.{ScriptState, by_condition, exec, exec_of, goes_on, in_turn, turns};
ghost use Rattle.mit_script.specs.Trees.{count_of, count_of_all};
ghost use Rattle.mit_script.specs.declared.tree.Stmt.TheVariants as stmt;
ghost use Rattle.mit_step.specs.Stepping.{EndsAs};
ghost use Rattle.mit_step.specs.Running.{Asks, LeavesRun, Stands};
ghost use Rattle.mit_step.specs.Typing.{IsReady, Ready, StoreHolds};

use crate::count::{count_all, count_one};
use crate::run::{Run, assign, decide, write};
use mit_ops::{OpSpec, ScriptFault};
use mit_script::{Stmt, Typed};
use mit_shelf::{Shelf, Stop};
use mit_world::{Files, Folder};
use std::alloc::Global;

/// What a script that came to its end leaves.
#[derive(Drop)]
pub struct Stepped {
    /// The files that it writes.
    pub files: Files,
    /// How many decisions it took.
    pub decisions: u32,
}

/// Runs the statements of a block, whose first one has this number.
#[cycle(run)]
fn run_all<F: Folder>(
    block: &[Stmt],
    number: u32,
    run: &mut Run,
    shelf: &mut Shelf,
    folder: &mut F,
) -> Result<(), Stop<ScriptFault>>
    requires counted { 1 ≤ number }
    requires few { number + count_of_all block.now ≤ MAX_SCRIPT + 1 }
    requires ready { IsReady block.now run.old.store }
    ensures answer { (files : FileMap) (state : ScriptState) → Agrees shelf.new files → Stands state run.old →
        LeavesRun (in_turn (map (exec_of files) block.now) number state) (λ _. goes_on) run.new result }
    ensures holds { (types : List VarType) (known after : Known) → Ready types known after block.now run.old.store →
        OnOk result (StoreHolds types after run.new.store) }
    ensures sized { OnOk result (length run.new.store ≡ length run.old.store) }
    ensures fewer { run.new.decisions.left ≤ run.old.decisions.left }
    ensures asks { Asks (F.files folder.old) (F.files folder.new) (F.faults folder.old) (F.faults folder.new) shelf.old shelf.new }
    ensures failed { IfErr result (λ stop. IfFolder stop (Rose (F.faults folder.old) (F.faults folder.new))) }
{
    let mut at = number;
    for stmt in block {
        run_one(stmt, at, run, shelf, folder)?;
        at += count_one(stmt);
    }
    Ok(())
}

/// Runs a statement, which has this number.
#[cycle(run)]
fn run_one<F: Folder>(
    stmt: &Stmt,
    number: u32,
    run: &mut Run,
    shelf: &mut Shelf,
    folder: &mut F,
) -> Result<(), Stop<ScriptFault>>
    requires counted { 1 ≤ number }
    requires few { number + count_of stmt.now ≤ MAX_SCRIPT + 1 }
    requires ready { IsReady (stmt.now ∷ []) run.old.store }
    ensures answer { (files : FileMap) (state : ScriptState) → Agrees shelf.new files → Stands state run.old →
        LeavesRun ((exec_of files stmt.now).does number state) (λ _. goes_on) run.new result }
    ensures holds { (types : List VarType) (known after : Known) → Ready types known after (stmt.now ∷ []) run.old.store →
        OnOk result (StoreHolds types after run.new.store) }
    ensures sized { OnOk result (length run.new.store ≡ length run.old.store) }
    ensures fewer { run.new.decisions.left ≤ run.old.decisions.left }
    ensures asks { Asks (F.files folder.old) (F.files folder.new) (F.faults folder.old) (F.faults folder.new) shelf.old shelf.new }
    ensures failed { IfErr result (λ stop. IfFolder stop (Rose (F.faults folder.old) (F.faults folder.new))) }
{
    match stmt {
        Stmt::Assign { target, op, args } => {
            assign(*target, op, args.as_slice(), number, run, shelf, folder)
        }
        Stmt::Write { op, args } => write(op, args.as_slice(), number, run, shelf, folder),
        Stmt::If { op, args, yes, no } => {
            if decide(op, args.as_slice(), number, run, shelf, folder)? {
                run_all(yes.as_slice(), number + 1, run, shelf, folder)
            } else {
                let first = number + 1 + count_all(yes.as_slice());
                run_all(no.as_slice(), first, run, shelf, folder)
            }
        }
        Stmt::While { op, args, body } => {
            run_while(
                op,
                args.as_slice(),
                body.as_slice(),
                number,
                run,
                shelf,
                folder,
            )
        }
    }
}

/// Runs a block as long as its condition is true. The loop has this number.
#[cycle(run)]
fn run_while<F: Folder>(
    op: &OpSpec,
    args: &[u32],
    body: &[Stmt],
    number: u32,
    run: &mut Run,
    shelf: &mut Shelf,
    folder: &mut F,
) -> Result<(), Stop<ScriptFault>>
    requires counted { 1 ≤ number }
    requires few { number + 1 + count_of_all body.now ≤ MAX_SCRIPT + 1 }
    requires ready { IsReady (stmt.While op.now args.now body.now ∷ []) run.old.store }
    ensures answer { (files : FileMap) (state : ScriptState) → Agrees shelf.new files → Stands state run.old →
        LeavesRun (turns state.left (by_condition files number op.now args.now)
        (in_turn (map (exec_of files) body.now) (number + 1)) state) (λ _. goes_on) run.new result }
    ensures holds { (types : List VarType) (known after : Known) →
        Ready types known after (stmt.While op.now args.now body.now ∷ []) run.old.store →
        OnOk result (StoreHolds types after run.new.store) }
    ensures sized { OnOk result (length run.new.store ≡ length run.old.store) }
    ensures fewer { run.new.decisions.left ≤ run.old.decisions.left }
    ensures asks { Asks (F.files folder.old) (F.files folder.new) (F.faults folder.old) (F.faults folder.new) shelf.old shelf.new }
    ensures failed { IfErr result (λ stop. IfFolder stop (Rose (F.faults folder.old) (F.faults folder.new))) }
{
    'turns: loop {
        if !decide(op, args, number, run, shelf, folder)? {
            return Ok(());
        }
        run_all(body, number + 1, run, shelf, folder)?;
    }
}

/// Runs an accepted script, with at most so many decisions, statement by statement. What is read is read through the
/// shelf, so that each file name is asked for once.
pub fn step_run<F: Folder>(
    alloc: Global,
    typed: &Typed,
    decisions: u32,
    shelf: &mut Shelf,
    folder: &mut F,
) -> Result<Stepped, Stop<ScriptFault>>
    // Whatever the folder answered, the ending is the interpreter's over all files that agree with the shelf then.
    ensures answer { (files : FileMap) → Agrees shelf.new files → EndsAs (exec typed.now.script files decisions) result }

    // Files that agree with the shelf now agreed with it before; those that the folder tells still agree.
    ensures grows { (files : FileMap) → Agrees shelf.new files → Agrees shelf.old files }
    ensures agrees { IfSome (F.files folder.old) (λ files. Agrees shelf.old files → Agrees shelf.new files) }
    ensures failed { IfErr result (λ stop. IfFolder stop (Rose (F.faults folder.old) (F.faults folder.new))) }

    // What the folder tells stays.
    ensures told { F.files folder.new ≡ F.files folder.old }
    ensures count { F.faults folder.old ≤ F.faults folder.new }
{
    let script = typed.script();
    let _types = typed.types();
    let mut run = Run::new(alloc, script.names.as_slice().len(), decisions)?;
    run_all(script.body.as_slice(), 1, &mut run, shelf, folder)?;
    Ok(Stepped {
        files: run.files,
        decisions: run.decisions.used,
    })
}
