//! Showing a text on the console.
ghost use Rattle.std.specs.Prelude.{◌≤◌, IfErr};
ghost use Rattle.mit_world.specs.Outside.{Continues, Rose};
ghost use Rattle.mit_app.specs.Ends.{IfOutsideFailed, PutsAs};

use crate::ends::{Halt, Outside};
use mit_world::{Console, OutsideStop};

/// Shows this text.
pub(crate) fn show<C: Console>(text: &[u8], console: &mut C) -> Result<(), Halt>
    ensures shown { PutsAs text.now (C.written console.old) (C.written console.new) result }
    ensures failed { IfErr result (λ halt. IfOutsideFailed halt ⊥ ⊥ (Rose (C.faults console.old) (C.faults console.new))) }
    ensures continues { Continues (C.written console.old) (C.written console.new) }
    ensures count { C.faults console.old ≤ C.faults console.new }
{
    match console.put(text) {
        Ok(()) => Ok(()),
        Err(OutsideStop::Failed) => Err(Halt::Failed(Outside::Console)),
        Err(OutsideStop::NoMemory) => Err(Halt::Failed(Outside::NoMemory)),
    }
}
