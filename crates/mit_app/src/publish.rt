//! Publishing the files of a script that came to its end.
ghost use Rattle.std.specs.Prelude.{◌≡◌, ◌≤◌, IfErr, OnErr, string_bytes};
ghost use Rattle.mit_world.specs.Outside.{Continues, Rose};
ghost use Rattle.mit_shelf.specs.Staging.{published_in};
ghost use Rattle.mit_app.specs.Ends.{IfOutsideFailed, PublishesAs};

use crate::ends::{Halt, Outside};
use mit_shelf::stage_all;
use mit_world::{Console, Files, Outbox, OutsideStop};

/// What a script that came to its end leaves.
#[derive(Drop)]
pub(crate) struct Ran {
    /// The files that it writes.
    pub(crate) files: Files,
    /// The line that tells how it ended.
    pub(crate) report: String,
}

/// Stages the files, reports, and publishes.
pub(crate) fn publish<O: Outbox, C: Console>(
    ran: &Ran,
    outbox: &mut O,
    console: &mut C,
) -> Result<(), Halt>
    ensures published { PublishesAs ran.now.files (string_bytes ran.now.report)
        (O.held outbox.old) (O.held outbox.new) (C.written console.old) (C.written console.new) result }
    ensures unpublished { OnErr result (published_in (O.held outbox.new) ≡ published_in (O.held outbox.old)) }
    ensures continues { Continues (C.written console.old) (C.written console.new) }
    ensures failed { IfErr result (λ halt. IfOutsideFailed halt ⊥ (Rose (O.faults outbox.old) (O.faults outbox.new))
        (Rose (C.faults console.old) (C.faults console.new))) }
    ensures outbox_count { O.faults outbox.old ≤ O.faults outbox.new }
    ensures console_count { C.faults console.old ≤ C.faults console.new }
{
    match stage_all(&ran.files, outbox) {
        Ok(()) => {}
        Err(OutsideStop::Failed) => return Err(Halt::Failed(Outside::Outbox)),
        Err(OutsideStop::NoMemory) => return Err(Halt::Failed(Outside::NoMemory)),
    }
    match console.put(ran.report.as_bytes()) {
        Ok(()) => {}
        Err(OutsideStop::Failed) => return Err(Halt::Failed(Outside::Console)),
        Err(OutsideStop::NoMemory) => return Err(Halt::Failed(Outside::NoMemory)),
    }
    match outbox.publish() {
        Ok(()) => Ok(()),
        Err(OutsideStop::Failed) => Err(Halt::Failed(Outside::Outbox)),
        Err(OutsideStop::NoMemory) => Err(Halt::Failed(Outside::NoMemory)),
    }
}
