//! Each call of a kernel in a kit of boxed kernels.
ghost use Rattle.std.specs.Prelude.{◌≡◌, ◌<◌, IfOk, OnErr, OnOk, None, length};
ghost use Rattle.mit_kernel.specs.Finishing.{Finishes};
ghost use Rattle.mit_kernel.specs.Meaning.{HasInputs, HasSlot, Takes, begun, closed, fed_row, no_rows, part_of_slot, renewed};
ghost use Rattle.mit_ops.specs.Kinds.{kind_of};
ghost use Rattle.mit_ops.specs.Parts.{Fits};

use crate::{Finished, Kernel};
use mit_ops::OpSpec;
use mit_rows::Row;
use std::alloc::AllocError;

/// Begins a slot for an operator in the partition `part` of `parts`, with empty lists.
pub fn begin(
    kernel: &mut Box<dyn Kernel>,
    spec: &OpSpec,
    part: u16,
    parts: u16,
) -> Result<u64, AllocError>
    requires kind { kind_of spec.now ≡ (meaning kernel.old).kind }
    requires fits { Fits spec.now (no_rows spec.now) }
    requires among { part < parts }
    ensures free { IfOk result (λ slot. (meaning kernel.old).slots slot ≡ None) }
    ensures ok { IfOk result (λ slot. meaning kernel.new ≡ begun (meaning kernel.old) slot spec.now part parts) }
    ensures err { OnErr result (meaning kernel.new ≡ meaning kernel.old) }
{
    kernel.begin(spec, part, parts)
}

/// Adds a row to the list of an input, and counts it.
pub fn feed(
    kernel: &mut Box<dyn Kernel>,
    slot: u64,
    input: u16,
    row: &Row,
) -> Result<(), AllocError>
    requires { Takes (meaning kernel.old) slot input row.now }
    ensures ok { OnOk result (meaning kernel.new ≡ fed_row (meaning kernel.old) slot input row.now) }
    ensures err { OnErr result (meaning kernel.new ≡ meaning kernel.old) }
{
    kernel.feed(slot, input, row)
}

/// The part of the slot's operator over the rows that it was fed: its rows are added to `out`, or it is a fault.
pub fn finish(
    kernel: &mut Box<dyn Kernel>,
    slot: u64,
    out: &mut Vec<Row>,
) -> Result<Finished, AllocError>
    requires { HasSlot (meaning kernel.old) slot }
    ensures part { IfOk result (λ end. Finishes (part_of_slot (meaning kernel.old) slot) end out.old.items out.new.items) }
    ensures err { OnErr result (out.new.items ≡ out.old.items) }
    ensures same { meaning kernel.new ≡ meaning kernel.old }
{
    kernel.finish(slot, out)
}

/// Empties the lists of those inputs that are not to be kept.
pub fn renew(kernel: &mut Box<dyn Kernel>, slot: u64, keep: &[bool])
    requires { HasInputs (meaning kernel.old) slot (length keep.now) }
    ensures { meaning kernel.new ≡ renewed (meaning kernel.old) slot keep.now }
{
    kernel.renew(slot, keep)
}

/// Takes a slot away.
pub fn close(kernel: &mut Box<dyn Kernel>, slot: u64)
    requires { HasSlot (meaning kernel.old) slot }
    ensures { meaning kernel.new ≡ closed (meaning kernel.old) slot }
{
    kernel.close(slot)
}
