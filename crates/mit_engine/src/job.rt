//! The running job of a thin script, and its actions: deliveries of messages and polls of operators.
ghost use Rattle.std.specs.Prelude.{◌≡◌, ◌≤◌, ◌<◌, ◌++◌, true, Result, IfErr, IfOk, IfSome, OnOk, drop, length, slice_get, vec_len};
ghost use Rattle.mit_rows.specs.Bags.{BagOf};
ghost use Rattle.mit_files.specs.Files.{FileMap};
ghost use Rattle.mit_files.specs.Printed.{published};
ghost use Rattle.mit_world.specs.Outside.{IfFailed, Rose};
ghost use Rattle.mit_shelf.specs.Shelf.{Agrees};
ghost use Rattle.mit_ops.specs.declared.faults.FaultKind.{FaultKind};
ghost use Rattle.mit_engine.specs.Operators.{IsPollReady, after_poll, bags_here, first_job, passed_on, due_bag, with_operators, staged_writes};
ghost use Rattle.mit_engine.specs.Running.{Goes, IsEnabled, JobStands, edge_parts_from, offer_of, parts_from, polls_from, reports_from, verdict_of};
ghost use Rattle.mit_engine.specs.Thin.{IsFormedThin};

use crate::channel::Channel;
use crate::edges::Edge;
use crate::operators::{Operator, Outcome, files_of, operators_of, send};
use crate::polls::whole;
use crate::thin::ThinStep;
use mit_bags::Bag;
use mit_ops::FaultKind;
use mit_shelf::{Shelf, Stop};
use mit_world::{Files, Folder, OutsideStop};
use std::alloc::{AllocError, Global};
use std::marker::Model;

/// What holds the job together: the path's channel, and its operators.
#[derive(Drop)]
pub(crate) struct Job {
    /// The block that is to be learned.
    path: Channel<u32>,
    learned: bool,
    operators: Vec<Operator>,
}

impl Model for Job {
    ghost use Rattle.mit_engine.specs.Operators.{JobState};

    ghost Value = { JobState };

    ghost view = { λ job. record { path = job.path; learned = job.learned; operators = job.operators.items } };
}

/// One action of the job.
#[derive(Clone, Copy)]
pub(crate) enum Action {
    /// The worker learns the block that comes next on the path.
    Learn,
    /// The coordinator hears the report of an operator.
    Hear(usize),
    /// An operator receives the bag of one of its inputs.
    Take(usize, usize),
    /// An operator is polled.
    Poll(usize),
}

/// How far the job has come.
#[derive(Clone, Copy)]
pub(crate) enum Verdict {
    /// It goes on.
    Running,
    /// Each operator is heard Done.
    Complete,
    /// The first operator that is not heard Done is at fault.
    Fault(usize, FaultKind),
}

impl Job {
    /// The job of these statements, before its first action: the path's block waits in its channel.
    pub(crate) fn of(alloc: Global, steps: &[ThinStep]) -> Result<Job, AllocError>
        requires { IsFormedThin steps.now }
        ensures { IfOk result (λ job. job ≡ first_job steps.now) }
    {
        let mut path = Channel::new(alloc);
        path.put(0)?;
        Ok(Job {
            path,
            learned: false,
            operators: operators_of(alloc, steps)?,
        })
    }

    /// How far the job has come: the first operator that is not heard Done decides.
    pub(crate) fn verdict(&self) -> Verdict
        ensures { result ≡ verdict_of self.now }
    {
        for (at, operator) in self.operators.iter().enumerate() {
            match operator.heard {
                None => return Verdict::Running,
                Some(Outcome::Done) => {}
                Some(Outcome::Fault(kind)) => return Verdict::Fault(at, kind),
            }
        }
        Verdict::Complete
    }

    /// The actions that can be done now, in rising order of their numbers: the path's delivery, those of reports by
    /// operator, those of parts by operator and input, and the polls by operator.
    pub(crate) fn offer(&self, alloc: Global) -> Result<Vec<Action>, AllocError>
        ensures { IfOk result (λ offer. offer.items ≡ offer_of self.now) }
    {
        let mut offer = Vec::new(alloc);
        if !self.path.is_empty() {
            offer.push(Action::Learn)?;
        }
        offer_reports(&mut offer, &self.operators)?;
        offer_parts(&mut offer, &self.operators)?;
        if self.learned {
            offer_polls(&mut offer, &self.operators)?;
        }
        Ok(offer)
    }

    /// Does an action that is on offer.
    pub(crate) fn act<F: Folder>(
        &mut self,
        alloc: Global,
        action: Action,
        steps: &[ThinStep],
        shelf: &mut Shelf,
        folder: &mut F,
    ) -> Result<(), OutsideStop>
        requires formed { IsFormedThin steps.now }
        requires stands { JobStands steps.now shelf.old self.old }
        requires enabled { IsEnabled self.old action }
        ensures goes { OnOk result (Goes steps.now shelf.new self.old self.new) }
        ensures grows { (files : FileMap) → Agrees shelf.new files → Agrees shelf.old files }
        ensures agrees { IfSome (F.files folder.old) (λ files. Agrees shelf.old files → Agrees shelf.new files) }
        ensures failed { IfErr result (λ stop. IfFailed stop (Rose (F.faults folder.old) (F.faults folder.new))) }
        ensures told { F.files folder.new ≡ F.files folder.old }
        ensures count { F.faults folder.old ≤ F.faults folder.new }
    {
        match action {
            Action::Learn => {
                self.learn();
                Ok(())
            }
            Action::Hear(at) => {
                self.operators[at].hear();
                Ok(())
            }
            Action::Take(at, input) => {
                self.operators[at].inputs.take(input);
                Ok(())
            }
            Action::Poll(at) => {
                let step = &steps[at];
                self.poll(alloc, at, step, shelf, folder)
            }
        }
    }

    /// The files of all writes, in the order of the statements.
    pub(crate) fn files(&self, alloc: Global, steps: &[ThinStep]) -> Result<Files, AllocError>
        requires { length self.now.operators ≡ length steps.now }
        ensures { IfOk result (λ files. files ≡ published (staged_writes steps.now self.now.operators)) }
    {
        files_of(alloc, steps, &self.operators)
    }

    // Learns the block at the head of the path's channel.
    fn learn(&mut self)
        ensures { self.new ≡ record { path = drop 1 self.old.path; learned = true; operators = self.old.operators } }
    {
        let _ = self.path.take();
        self.learned = true;
    }

    // Polls an operator: it is fed, does its statement, reports, and sends its bag along its edges.
    fn poll<F: Folder>(
        &mut self,
        alloc: Global,
        at: usize,
        step: &ThinStep,
        shelf: &mut Shelf,
        folder: &mut F,
    ) -> Result<(), OutsideStop>
        requires within { at < length self.old.operators }
        requires ready { IfSome (slice_get self.old.operators at) (λ operator. IsPollReady step.now (bags_here operator.inputs)) }
        ensures polled { OnOk result (IfSome (slice_get self.old.operators at) (λ operator. (made : Result BagOf FaultKind)
            × (self.new ≡ with_operators self.old (after_poll step.now at operator made self.old.operators))
            × ((files : FileMap) → Agrees shelf.new files → due_bag files step.now (bags_here operator.inputs) ≡ made))) }
        ensures grows { (files : FileMap) → Agrees shelf.new files → Agrees shelf.old files }
        ensures agrees { IfSome (F.files folder.old) (λ files. Agrees shelf.old files → Agrees shelf.new files) }
        ensures failed { IfErr result (λ stop. IfFailed stop (Rose (F.faults folder.old) (F.faults folder.new))) }
        ensures told { F.files folder.new ≡ F.files folder.old }
        ensures count { F.faults folder.old ≤ F.faults folder.new }
    {
        let inputs = self.operators[at].inputs.feed(alloc)?;
        match whole(alloc, shelf, step, inputs, folder) {
            Ok(bag) => {
                self.operators[at].report(Outcome::Done)?;
                pass_on(alloc, &mut self.operators, at, step, bag)?;
                Ok(())
            }
            Err(Stop::Fault(kind)) => {
                self.operators[at].report(Outcome::Fault(kind))?;
                Ok(())
            }
            Err(Stop::Folder) => Err(OutsideStop::Failed),
            Err(Stop::NoMemory) => Err(OutsideStop::NoMemory),
        }
    }
}

// Stages the bag of a write, or sends that of any other operator.
#[tactic(auto, unfolding(crate::specs::Operators::passed_on))]
fn pass_on(
    alloc: Global,
    operators: &mut Vec<Operator>,
    at: usize,
    step: &ThinStep,
    bag: Bag,
) -> Result<(), AllocError>
    requires { at < vec_len operators.old }
    ensures { OnOk result (IfSome (slice_get operators.old.items at) (λ operator.
        operators.new.items ≡ passed_on step.now at operator bag operators.old.items)) }
{
    if let ThinStep::Write { .. } = step {
        operators[at].staged = Some(bag);
        return Ok(());
    }
    send(alloc, operators, at, bag)
}

// The deliveries of reports.
fn offer_reports(offer: &mut Vec<Action>, operators: &[Operator]) -> Result<(), AllocError>
    ensures { OnOk result (offer.new.items ≡ offer.old.items ++ reports_from 0 operators.now) }
{
    for (at, operator) in operators.iter().enumerate() {
        if !operator.reports.is_empty() {
            offer.push(Action::Hear(at))?;
        }
    }
    Ok(())
}

// The deliveries of parts.
fn offer_parts(offer: &mut Vec<Action>, operators: &[Operator]) -> Result<(), AllocError>
    ensures { OnOk result (offer.new.items ≡ offer.old.items ++ parts_from 0 operators.now) }
{
    for (at, operator) in operators.iter().enumerate() {
        offer_inputs(offer, at, operator.inputs.as_slice())?;
    }
    Ok(())
}

// The deliveries of the parts of one operator.
fn offer_inputs(offer: &mut Vec<Action>, at: usize, edges: &[Edge]) -> Result<(), AllocError>
    ensures { OnOk result (offer.new.items ≡ offer.old.items ++ edge_parts_from at 0 edges.now) }
{
    for (input, edge) in edges.iter().enumerate() {
        if edge.has_message() {
            offer.push(Action::Take(at, input))?;
        }
    }
    Ok(())
}

// The polls.
fn offer_polls(offer: &mut Vec<Action>, operators: &[Operator]) -> Result<(), AllocError>
    ensures { OnOk result (offer.new.items ≡ offer.old.items ++ polls_from 0 operators.now) }
{
    for (at, operator) in operators.iter().enumerate() {
        if operator.can_poll() {
            offer.push(Action::Poll(at))?;
        }
    }
    Ok(())
}
