//! The operators of a job, one for each statement.
ghost use Rattle.std.specs.Prelude.{◌≡◌, ◌≤◌, ◌++◌, ◌∷◌, [], true, IfOk, OnOk, drop, length, map, take, vec_len};
ghost use Rattle.std.specs.FinMap as fin;
ghost use Rattle.mit_files.specs.Printed.{bag_text, published, published_onto};
ghost use Rattle.mit_engine.specs.Operators.{FitsVariables, assigned_after, first_operator, hears, is_pollable, sends_all, sources, sources_of, staged_writes};
ghost use Rattle.mit_engine.specs.Thin.{IsFormedThin};

use crate::channel::Channel;
use crate::edges::Inputs;
use crate::thin::ThinStep;
use mit_bags::Bag;
use mit_ops::FaultKind;
use mit_shelf::{Name, print_rows};
use mit_world::Files;
use std::alloc::{AllocError, Global};

/// What an operator reports of its poll.
#[derive(Clone, Copy)]
pub(crate) enum Outcome {
    /// Its bag is made.
    Done,
    /// It is at fault.
    Fault(FaultKind),
}

/// An operator, with the edges that lead to it and its report channel.
#[derive(Drop)]
pub(crate) struct Operator {
    pub(crate) inputs: Inputs,
    pub(crate) polled: bool,
    pub(crate) reports: Channel<Outcome>,
    /// The report that was heard.
    pub(crate) heard: Option<Outcome>,
    /// The bag that a write staged.
    pub(crate) staged: Option<Bag>,
}

impl Operator {
    /// An operator with edges from these, of which nothing has happened.
    pub(crate) fn first(alloc: Global, sources: &[usize]) -> Result<Operator, AllocError>
        ensures { IfOk result (λ operator. operator ≡ first_operator sources.now) }
    {
        Ok(Operator {
            inputs: Inputs::of(alloc, sources)?,
            polled: false,
            reports: Channel::new(alloc),
            heard: None,
            staged: None,
        })
    }

    /// Whether it can be polled.
    pub(crate) fn can_poll(&self) -> bool
        ensures { result ≡ is_pollable self.now }
    {
        !self.polled && self.inputs.are_here()
    }

    /// Puts its report into its channel, and is polled.
    pub(crate) fn report(&mut self, outcome: Outcome) -> Result<(), AllocError>
        ensures { OnOk result (self.new ≡ record self.old { polled = true; reports = self.old.reports ++ outcome ∷ [] }) }
    {
        self.polled = true;
        self.reports.put(outcome)
    }

    /// Hears its oldest report, where there is one.
    pub(crate) fn hear(&mut self)
        ensures { self.new ≡ hears self.old }
    {
        if let Some(outcome) = self.reports.take() {
            self.heard = Some(outcome);
        }
    }
}

/// The operators of a script, of which nothing has happened.
pub(crate) fn operators_of(alloc: Global, steps: &[ThinStep]) -> Result<Vec<Operator>, AllocError>
    requires { IsFormedThin steps.now }
    ensures { IfOk result (λ operators. operators.items ≡ map first_operator (sources steps.now)) }
{
    let mut assigned: Vec<usize> = Vec::new(alloc);
    let mut operators = Vec::with_capacity(alloc, steps.len())?;
    for (at, step) in steps.iter().enumerate() {
        operators.push(operator_of(alloc, &assigned, step)?)?;
        note(&mut assigned, step, at)?;
    }
    Ok(operators)
}

/// Puts a bag into the channel of each edge that leads from this operator: itself at the last, and copies before.
pub(crate) fn send(
    alloc: Global,
    operators: &mut Vec<Operator>,
    from: usize,
    bag: Bag,
) -> Result<(), AllocError>
    ensures { OnOk result (operators.new.items ≡ map (sends_all from bag) operators.old.items) }
{
    for last in (0..operators.len()).rev() {
        if operators[last].inputs.lead_from(from) {
            copy_before(alloc, operators, last, from, &bag)?;
            return operators[last].inputs.send(alloc, from, bag);
        }
    }
    Ok(())
}

// Puts a copy of a bag into the channel of each edge that leads from this operator to one before this place.
fn copy_before(
    alloc: Global,
    operators: &mut [Operator],
    end: usize,
    from: usize,
    bag: &Bag,
) -> Result<(), AllocError>
    requires { end ≤ length operators.old }
    ensures { OnOk result (operators.new ≡ map (sends_all from bag.now) (take end operators.old) ++ drop end operators.old) }
{
    for at in 0..end {
        operators[at].inputs.send_copies(alloc, from, bag)?;
    }
    Ok(())
}

/// The files of all writes, in the order of the statements.
pub(crate) fn files_of(
    alloc: Global,
    steps: &[ThinStep],
    operators: &[Operator],
) -> Result<Files, AllocError>
    requires { length operators.now ≡ length steps.now }
    ensures { IfOk result (λ files. files ≡ published (staged_writes steps.now operators.now)) }
{
    let mut written = Files::new(alloc);
    for at in 0..steps.len() {
        write_staged(alloc, &mut written, &steps[at], &operators[at])?;
    }
    Ok(written)
}

// Writes the file of an operator, where it is a write that has staged its bag.
#[tactic(auto, unfolding(crate::specs::Operators::staged_writes, mit_files::specs::Printed::published_onto))]
fn write_staged(
    alloc: Global,
    written: &mut Files,
    step: &ThinStep,
    operator: &Operator,
) -> Result<(), AllocError>
    ensures { OnOk result (written.new ≡ published_onto written.old (staged_writes (step.now ∷ []) (operator.now ∷ []))) }
{
    match step {
        ThinStep::Read { .. } | ThinStep::Union { .. } => Ok(()),
        ThinStep::Write { name, .. } => match &operator.staged {
            None => Ok(()),
            Some(bag) => write(alloc, written, name, bag),
        },
    }
}

// Writes the text of a bag as the file of this name.
fn write(alloc: Global, written: &mut Files, name: &Name, bag: &Bag) -> Result<(), AllocError>
    ensures ok { OnOk result (written.new ≡ fin.insert written.old name.now (bag_text bag.now)) }
{
    let text = print_rows(alloc, bag)?;
    written.put_owned(name.as_str(), text)
}

// An operator of this statement, whose arguments were assigned by these operators.
fn operator_of(alloc: Global, assigned: &[usize], step: &ThinStep) -> Result<Operator, AllocError>
    requires { FitsVariables (length assigned.now) step.now }
    ensures { IfOk result (λ operator. operator ≡ first_operator (sources_of assigned.now step.now)) }
{
    match step {
        ThinStep::Read { .. } => Operator::first(alloc, &[]),
        ThinStep::Union { left, right, .. } => {
            Operator::first(
                alloc,
                &[assigned[*left as usize], assigned[*right as usize]],
            )
        }
        ThinStep::Write { source, .. } => Operator::first(alloc, &[assigned[*source as usize]]),
    }
}

// Notes the operator that assigns a variable.
fn note(assigned: &mut Vec<usize>, step: &ThinStep, at: usize) -> Result<(), AllocError>
    requires { FitsVariables (vec_len assigned.old) step.now }
    ensures { OnOk result (assigned.new.items ≡ assigned_after assigned.old.items at step.now) }
{
    match step {
        ThinStep::Read { target, .. } | ThinStep::Union { target, .. } => {
            let place = *target as usize;
            if place < assigned.len() {
                assigned[place] = at;
            } else {
                assigned.push(at)?;
            }
        }
        ThinStep::Write { .. } => {}
    }
    Ok(())
}
