//! Where a run stands, and what single statements do to it.
ghost use Rattle.std.specs.Prelude.{◌≡◌, ◌<◌, ◌≤◌, Bool, Ok, true, false, map, length, set, IfErr, IfOk, MatchResult, OnOk};
ghost use Rattle.mit_rows.specs.Bags.{BagOf};
ghost use Rattle.mit_files.specs.Files.{FileMap};
ghost use Rattle.mit_world.specs.Outside.{Rose};
ghost use Rattle.mit_shelf.specs.Shelf.{Agrees};
ghost use Rattle.mit_shelf.specs.Stops.{IfFolder};
ghost use Rattle.mit_ops.specs.Endings.{truth_in};
ghost use Rattle.mit_ops.specs.Operators.{name_written};
ghost use Rattle.mit_script.specs.Execution.{Ended, ScriptState, after_write, assigned, by_condition, evaluated, goes_on, start};
ghost use Rattle.mit_script.specs.Trees.{is_write};
ghost use Rattle.mit_step.specs.Running.{Asks, Faults, LeavesRun, Stands, stop_at};
ghost use Rattle.mit_step.specs.Typing.{Argued, IsMade, inputs_in};

use crate::decisions::Decisions;
use crate::evaluate::{evaluate, name_of};
use crate::loose::Loose;
use crate::store::Store;
use mit_ops::{FaultKind, OpSpec, ScriptFault};
use mit_rows::Value;
use mit_shelf::{Shelf, Stop, print_rows};
use mit_world::{Files, Folder};
use std::alloc::{AllocError, Global};
use std::rc::Rc;

/// Where a run stands.
#[derive(Drop)]
pub(crate) struct Run {
    pub(crate) alloc: Global,
    pub(crate) store: Store,
    /// What was written so far.
    pub(crate) files: Files,
    pub(crate) decisions: Decisions,
}

impl Run {
    /// A run of so many variables and decisions at its start.
    pub(crate) fn new(alloc: Global, variables: usize, decisions: u32) -> Result<Run, AllocError>
        ensures stands { IfOk result (Stands (start decisions)) }
        ensures count { IfOk result (λ run. length run.store ≡ variables) }
    {
        Ok(Run {
            alloc,
            store: Store::new(alloc, variables)?,
            files: Files::new(alloc),
            decisions: Decisions {
                used: 0,
                left: decisions,
            },
        })
    }

    /// Why the run stops, where an operator of the statement of this number does.
    fn stop(&self, number: u32, stop: Stop<FaultKind>) -> Stop<ScriptFault>
        ensures { result ≡ stop_at number self.now.decisions.used stop }
    {
        match stop {
            Stop::Fault(kind) => Stop::Fault(ScriptFault {
                statement: number,
                decisions: self.decisions.used,
                kind,
            }),
            Stop::Folder => Stop::Folder,
            Stop::NoMemory => Stop::NoMemory,
        }
    }
}

/// The bag of a statement's operator.
fn bag_of<F: Folder>(
    op: &OpSpec,
    args: &[u32],
    number: u32,
    run: &Run,
    shelf: &mut Shelf,
    folder: &mut F,
) -> Result<Rc<Loose>, Stop<ScriptFault>>
    requires other { is_write op.now ≡ false }
    requires argued { Argued op.now args.now run.now.store }
    ensures answer { (files : FileMap) (state : ScriptState) (next : BagOf → Ended) →
        Agrees shelf.new files → Stands state run.now →
        MatchResult result (λ bag. evaluated files number op.now args.now state next ≡ next bag.value)
        (Faults (evaluated files number op.now args.now state next)) }
    ensures made { IfOk result (λ bag. IsMade op.now (inputs_in run.now.store args.now) bag.value) }
    ensures asks { Asks (F.files folder.old) (F.files folder.new) (F.faults folder.old) (F.faults folder.new) shelf.old shelf.new }
    ensures failed { IfErr result (λ stop. IfFolder stop (Rose (F.faults folder.old) (F.faults folder.new))) }
{
    match evaluate(run.alloc, op, args, &run.store, shelf, folder) {
        Ok(bag) => Ok(bag),
        Err(stop) => Err(run.stop(number, stop)),
    }
}

/// Gives a variable the bag of an operator.
pub(crate) fn assign<F: Folder>(
    target: u32,
    op: &OpSpec,
    args: &[u32],
    number: u32,
    run: &mut Run,
    shelf: &mut Shelf,
    folder: &mut F,
) -> Result<(), Stop<ScriptFault>>
    requires there { target < length run.old.store }
    requires other { is_write op.now ≡ false }
    requires argued { Argued op.now args.now run.old.store }
    ensures answer { (files : FileMap) (state : ScriptState) → Agrees shelf.new files → Stands state run.old →
        LeavesRun (evaluated files number op.now args.now state (assigned target state)) (λ _. goes_on) run.new result }
    ensures put { OnOk result ((bag : BagOf) × (run.new.store ≡ set run.old.store target bag)
        × IsMade op.now (inputs_in run.old.store args.now) bag) }
    ensures kept { run.new.decisions.left ≡ run.old.decisions.left }
    ensures asks { Asks (F.files folder.old) (F.files folder.new) (F.faults folder.old) (F.faults folder.new) shelf.old shelf.new }
    ensures failed { IfErr result (λ stop. IfFolder stop (Rose (F.faults folder.old) (F.faults folder.new))) }
{
    let bag = bag_of(op, args, number, run, shelf, folder)?;
    run.store.put(target, bag);
    Ok(())
}

/// Writes the bag of its argument under the name that it evaluates.
pub(crate) fn write<F: Folder>(
    op: &OpSpec,
    args: &[u32],
    number: u32,
    run: &mut Run,
    shelf: &mut Shelf,
    folder: &mut F,
) -> Result<(), Stop<ScriptFault>>
    requires write { is_write op.now ≡ true }
    requires argued { Argued op.now args.now run.old.store }
    ensures answer { (files : FileMap) (state : ScriptState) → Agrees shelf.new files → Stands state run.old →
        LeavesRun (evaluated files number op.now args.now state
        (after_write state (name_written op.now (map state.store args.now)))) (λ _. goes_on) run.new result }
    ensures store { run.new.store ≡ run.old.store }
    ensures kept { run.new.decisions.left ≡ run.old.decisions.left }
    ensures asks { Asks (F.files folder.old) (F.files folder.new) (F.faults folder.old) (F.faults folder.new) shelf.old shelf.new }
    ensures failed { IfErr result (λ stop. IfFolder stop (Rose (F.faults folder.old) (F.faults folder.new))) }
{
    let name = match name_of(run.alloc, op, args, &run.store) {
        Ok(name) => name,
        Err(stop) => return Err(run.stop(number, stop)),
    };
    let bag = run.store.get(args[0]).to_bag(run.alloc)?;
    let text = print_rows(run.alloc, &bag)?;
    run.files.put_owned(name.as_str(), text)?;
    Ok(())
}

/// The truth value of a condition's one row.
fn truth_of(bag: &Loose) -> bool
    ensures { result ≡ truth_in bag.now }
{
    let Some(row) = bag.single() else {
        return false;
    };
    match row.values() {
        [Value::Bool(truth)] => *truth,
        _ => false,
    }
}

/// What a condition decides: its own fault comes before that of the limit.
pub(crate) fn decide<F: Folder>(
    op: &OpSpec,
    args: &[u32],
    number: u32,
    run: &mut Run,
    shelf: &mut Shelf,
    folder: &mut F,
) -> Result<bool, Stop<ScriptFault>>
    requires other { is_write op.now ≡ false }
    requires argued { Argued op.now args.now run.old.store }
    ensures answer { (files : FileMap) (state : ScriptState) (next : Bool → ScriptState → Ended) →
        Agrees shelf.new files → Stands state run.old →
        LeavesRun (by_condition files number op.now args.now state next) next run.new result }
    ensures store { run.new.store ≡ run.old.store }
    ensures taken { OnOk result (run.new.decisions.left < run.old.decisions.left) }
    ensures fewer { run.new.decisions.left ≤ run.old.decisions.left }
    ensures asks { Asks (F.files folder.old) (F.files folder.new) (F.faults folder.old) (F.faults folder.new) shelf.old shelf.new }
    ensures failed { IfErr result (λ stop. IfFolder stop (Rose (F.faults folder.old) (F.faults folder.new))) }
{
    let bag = bag_of(op, args, number, run, shelf, folder)?;
    if !run.decisions.take() {
        return Err(run.stop(number, Stop::Fault(FaultKind::DecisionLimit)));
    }
    Ok(truth_of(&bag))
}
