//! Picks and runs, with values from outside.
ghost use Rattle.std.specs.Prelude.{IfOk};
ghost use Rattle.mit_files.specs.Names.{IsLegal};
ghost use Rattle.mit_engine.specs.Thin.{IsFormedThin};

use crate::given::{folder_of, name_of};
use crate::schedules::{Entry, Steady};
use mit_engine::{Done, Schedule, Seeded, Thin, ThinStep, run_thin};
use mit_ops::{FaultKind, ScriptFault};
use mit_shelf::{Name, Shelf, Stop};
use std::alloc::{AllocError, Global};
use std::process::Abort;

/// The next pick of a seeded schedule.
fn drawn(schedule: &mut Seeded, offered: u64) -> Option<u64> {
    if offered == 0 {
        return None;
    }
    schedule.pick(offered).ok()
}

// The words of PCG32 that `rand` seeds with 0 are 298703107, 4236525527, ..
#[test]
fn a_seed_gives_its_picks(rt: HostRuntime) {
    let mut schedule = Seeded::new(rt.alloc(), 0);
    assert!(rt; drawn(&mut schedule, 10) == Some(7));
    assert!(rt; drawn(&mut schedule, 4_000_000_000) == Some(236_525_527));
    assert!(rt; schedule.log().len() == 2);
}

/// Reads `in`, adds it to itself and writes the sum as `out`.
fn doubling(alloc: Global, input: Name, output: Name) -> Result<Thin, AllocError>
    requires input { IsLegal input }
    requires output { IsLegal output }
    ensures { IfOk result (λ script. IsFormedThin script) }
{
    Ok(Thin::from_steps(vec![in alloc;
        ThinStep::Read {
            target: 0,
            name: input,
            columns: 1
        },
        ThinStep::Union {
            target: 1,
            left: 0,
            right: 0
        },
        ThinStep::Write {
            source: 1,
            name: output
        },
    ]?))
}

/// Reads files of these names.
fn reading_files(alloc: Global, first: Name, second: Name, third: Name) -> Result<Thin, AllocError>
    requires first { IsLegal first }
    requires second { IsLegal second }
    requires third { IsLegal third }
    ensures { IfOk result (λ script. IsFormedThin script) }
{
    Ok(Thin::from_steps(vec![in alloc;
        ThinStep::Read {
            target: 0,
            name: first,
            columns: 1
        },
        ThinStep::Read {
            target: 1,
            name: second,
            columns: 1
        },
        ThinStep::Read {
            target: 2,
            name: third,
            columns: 1
        },
    ]?))
}

/// Reads `in`, a file that is not there, and `bad`.
fn reading(rt: &(impl Abort + AllocGlobal)) -> Thin
    ensures { IsFormedThin result }
{
    let first = name_of(rt, "in");
    let second = name_of(rt, "none");
    reading_files(rt.alloc(), first, second, name_of(rt, "bad")).expect(rt, "memory")
}

/// How a run over a file `in` of the rows 2 and 1 and a file `bad` of a letter ends.
fn ran<S: Schedule>(
    rt: &(impl Abort + AllocGlobal),
    script: &Thin,
    schedule: &mut S,
) -> Result<Done, Stop<ScriptFault>>
    requires { IsFormedThin script.now }
{
    let mut folder = folder_of(rt, "in=2\n1\n;bad=x\n", &[]);
    let mut shelf = Shelf::new(rt.alloc());
    run_thin(rt.alloc(), script, &mut shelf, &mut folder, schedule)
}

/// Whether a run wrote the rows of `in` twice as `out`, and nothing else, by ten actions.
fn doubled(done: &Done) -> bool {
    let out = done.files.get("out");
    out == Some(b"1\n1\n2\n2\n".as_slice())
        && (done.files.len(), done.blocks, done.actions) == (1, 1, 10)
}

/// Whether a run doubled `in`, or why it stopped.
type End = Result<bool, Stop<ScriptFault>>;

fn ended<S: Schedule>(rt: &(impl Abort + AllocGlobal), script: &Thin, schedule: &mut S) -> End
    requires { IsFormedThin script.now }
{
    let done = ran(rt, script, schedule)?;
    Ok(doubled(&done))
}

/// Runs end so under the seeds 0 to 9.
fn expect_seeded(rt: &(impl Abort + AllocGlobal), script: &Thin, due: End)
    requires { IsFormedThin script.now }
{
    for seed in 0..10 {
        let mut schedule = Seeded::new(rt.alloc(), seed);
        assert!(rt; ended(rt, script, &mut schedule) == due, "seed {seed}");
    }
}

/// Runs end so where always the first, the last or the middle entry is taken, and the pick of this number finds no memory.
fn expect_steady(rt: &(impl Abort + AllocGlobal), script: &Thin, fails: usize, due: End)
    requires { IsFormedThin script.now }
{
    for entry in [Entry::First, Entry::Last, Entry::Middle] {
        let mut schedule = Steady::new(rt.alloc(), entry, fails);
        assert!(rt; ended(rt, script, &mut schedule) == due, "pick {fails}");
    }
}

/// A script that doubles `in`.
fn doubling_in(rt: &(impl Abort + AllocGlobal)) -> Thin
    ensures { IsFormedThin result }
{
    let input = name_of(rt, "in");
    doubling(rt.alloc(), input, name_of(rt, "out")).expect(rt, "memory")
}

#[test]
fn the_order_of_delivery_changes_no_file(rt: HostRuntime) {
    let script = doubling_in(&rt);
    expect_seeded(&rt, &script, Ok(true));
    expect_steady(&rt, &script, 0, Ok(true));
}

// A job of ten actions has no eleventh pick.
#[test]
fn a_pick_without_memory_ends_a_run(rt: HostRuntime) {
    let script = doubling_in(&rt);
    for fails in 1..11 {
        expect_steady(&rt, &script, fails, Err(Stop::NoMemory));
    }
    expect_steady(&rt, &script, 11, Ok(true));
}

#[test]
fn the_first_fault_in_the_text_is_told_whatever_is_heard_first(rt: HostRuntime) {
    let script = reading(&rt);
    let fault = ScriptFault {
        statement: 2,
        decisions: 0,
        kind: FaultKind::NoFile,
    };
    expect_seeded(&rt, &script, Err(Stop::Fault(fault)));
    expect_steady(&rt, &script, 0, Err(Stop::Fault(fault)));
}
