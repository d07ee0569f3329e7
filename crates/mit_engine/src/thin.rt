//! Thin scripts, their statements, and the job that runs them.
ghost use Rattle.std.specs.Prelude.{◌≡◌, ◌≤◌, ◌+◌, IfErr, IfOk, IfSome, OnOk};
ghost use Rattle.mit_files.specs.Files.{FileMap};
ghost use Rattle.mit_world.specs.Outside.{IfFailed, Rose};
ghost use Rattle.mit_shelf.specs.Shelf.{Agrees};
ghost use Rattle.mit_shelf.specs.Stops.{IfFolder};
ghost use Rattle.mit_engine.specs.Job.{AnswersEnding};
ghost use Rattle.mit_engine.specs.Picks.{GrowsBy, GrowsWithin};
ghost use Rattle.mit_engine.specs.Running.{Goes, JobStands, verdict_of};
ghost use Rattle.mit_engine.specs.Thin.{IsFormedThin, action_count, exec_thin};
ghost use Rattle.mit_engine.specs.declared.job.Verdict.TheVariants as verdict;

use crate::job::{Job, Verdict};
use crate::schedule::Schedule;
use mit_ops::ScriptFault;
use mit_shelf::{Name, Shelf, Stop};
use mit_world::{Files, Folder, OutsideStop};
use std::alloc::Global;
use std::marker::Model;

/// The most statements of a thin script.
pub const MAX_STATEMENTS: usize = 1000;

/// A statement of a thin script. Variables are numbered by their first assignment in the text, from 0.
#[derive(Debug, Drop)]
pub enum ThinStep {
    /// Reads the file of this name as rows of so many integers.
    Read {
        target: u32,
        name: Name,
        columns: u8,
    },
    /// Adds two bags.
    Union {
        target: u32,
        left: u32,
        right: u32,
    },
    /// Writes a bag to the file of this name.
    Write {
        source: u32,
        name: Name,
    },
}

/// The statements of a thin script in order, which contracts see as their list.
#[derive(Debug, Drop)]
pub struct Thin {
    steps: Vec<ThinStep>,
}

impl Model for Thin {
    ghost use Rattle.std.specs.Prelude.{List};
    ghost use Rattle.mit_engine.specs.declared.thin.ThinStep.{ThinStep};

    ghost Value = { List ThinStep };

    ghost view = { λ script. script.steps.items };
}

impl Thin {
    /// A script of these statements.
    pub fn from_steps(steps: Vec<ThinStep>) -> Thin
        ensures { result ≡ steps.items }
    {
        Thin { steps }
    }

    /// Its statements in order.
    pub fn steps(&self) -> &[ThinStep]
        ensures { result.now ≡ self.now }
    {
        self.steps.as_slice()
    }
}

/// What a run that came to its end leaves.
#[derive(Drop)]
pub struct Done {
    /// The files that it publishes.
    pub files: Files,
    /// How many blocks it entered.
    pub blocks: u64,
    /// How many actions it took.
    pub actions: u64,
}

/// Runs a thin script as a job of one partition: each action is picked by the schedule from those on offer. What is read
/// is read through the shelf, so that each file name is asked for once.
pub fn run_thin<F: Folder, S: Schedule>(
    alloc: Global,
    script: &Thin,
    shelf: &mut Shelf,
    folder: &mut F,
    schedule: &mut S,
) -> Result<Done, Stop<ScriptFault>>
    requires { IsFormedThin script.now }

    // Whatever the picks are, the answer is the interpreter's over all files that agree with the shelf then.
    ensures answer { (files : FileMap) → Agrees shelf.new files → AnswersEnding script.now (exec_thin files script.now) result }

    // Files that agree with the shelf now agreed with it before; those that the folder tells still agree.
    ensures grows { (files : FileMap) → Agrees shelf.new files → Agrees shelf.old files }
    ensures agrees { IfSome (F.files folder.old) (λ files. Agrees shelf.old files → Agrees shelf.new files) }
    ensures failed { IfErr result (λ stop. IfFolder stop (Rose (F.faults folder.old) (F.faults folder.new))) }

    // The log grows by one pick for each action, and never by more than the actions of a job that comes to its end.
    ensures picked { IfOk result (λ done. GrowsBy done.actions (S.log schedule.old) (S.log schedule.new)) }
    ensures bounded { GrowsWithin (action_count script.now) (S.log schedule.old) (S.log schedule.new) }

    // What the folder tells stays.
    ensures told { F.files folder.new ≡ F.files folder.old }
    ensures count { F.faults folder.old ≤ F.faults folder.new }
{
    let steps = script.steps();
    let Ok(mut job) = Job::of(alloc, steps) else {
        return Err(Stop::NoMemory);
    };
    let mut actions = 0;
    'turns: loop {
        match job.verdict() {
            Verdict::Running => match turn(alloc, &mut job, steps, shelf, folder, schedule) {
                Ok(()) => actions += 1,
                Err(OutsideStop::Failed) => return Err(Stop::Folder),
                Err(OutsideStop::NoMemory) => return Err(Stop::NoMemory),
            },
            Verdict::Complete => {
                let Ok(files) = job.files(alloc, steps) else {
                    return Err(Stop::NoMemory);
                };
                return Ok(Done {
                    files,
                    blocks: 1,
                    actions,
                });
            }
            Verdict::Fault(at, kind) => {
                return Err(Stop::Fault(ScriptFault {
                    statement: at as u32 + 1,
                    decisions: 0,
                    kind,
                }));
            }
        }
    }
}

// Does the action that the schedule picks from the offer.
fn turn<F: Folder, S: Schedule>(
    alloc: Global,
    job: &mut Job,
    steps: &[ThinStep],
    shelf: &mut Shelf,
    folder: &mut F,
    schedule: &mut S,
) -> Result<(), OutsideStop>
    requires formed { IsFormedThin steps.now }
    requires stands { JobStands steps.now shelf.old job.old }
    requires running { verdict_of job.old ≡ verdict.Running }
    ensures goes { OnOk result (Goes steps.now shelf.new job.old job.new) }
    ensures picked { OnOk result (GrowsBy 1 (S.log schedule.old) (S.log schedule.new)) }
    ensures bounded { GrowsWithin 1 (S.log schedule.old) (S.log schedule.new) }
    ensures grows { (files : FileMap) → Agrees shelf.new files → Agrees shelf.old files }
    ensures agrees { IfSome (F.files folder.old) (λ files. Agrees shelf.old files → Agrees shelf.new files) }
    ensures failed { IfErr result (λ stop. IfFailed stop (Rose (F.faults folder.old) (F.faults folder.new))) }
    ensures told { F.files folder.new ≡ F.files folder.old }
    ensures count { F.faults folder.old ≤ F.faults folder.new }
{
    let offer = job.offer(alloc)?;
    let chosen = schedule.pick(offer.len() as u64)?;
    job.act(alloc, offer[chosen as usize], steps, shelf, folder)
}
