//! Staging the files of a run.
ghost use Rattle.std.specs.Prelude.{◌≡◌, ◌≤◌, IfErr, OnErr, OnOk, option_map};
ghost use Rattle.std.specs.FinMap as fin;
ghost use Rattle.mit_world.specs.Outside.{IfFailed, Rose};
ghost use Rattle.mit_shelf.specs.Staging.{StagesAfresh, StagesSome, published_in, stages_all};

use mit_world::{Files, Outbox, OutsideStop};

/// Stages these files in rising order of names, and stops at the first call that fails.
pub fn stage_all<O: Outbox>(files: &Files, outbox: &mut O) -> Result<(), OutsideStop>
    ensures staged { OnOk result (O.held outbox.new ≡ option_map (stages_all (fin.entries files.now)) (O.held outbox.old)) }
    ensures afresh { OnOk result (StagesAfresh files.now (O.held outbox.old) (O.held outbox.new)) }
    ensures stopped { OnErr result (StagesSome files.now (O.held outbox.old) (O.held outbox.new)) }
    ensures published { published_in (O.held outbox.new) ≡ published_in (O.held outbox.old) }
    ensures failed { IfErr result (λ stop. IfFailed stop (Rose (O.faults outbox.old) (O.faults outbox.new))) }
    ensures count { O.faults outbox.old ≤ O.faults outbox.new }
{
    for (name, bytes) in files.iter() {
        outbox.stage(name, bytes)?;
    }
    Ok(())
}
