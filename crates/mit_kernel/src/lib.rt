//! Kernels, which do the work of a kind of operators: one kernel serves every operator of its kind, in every partition and
//! turn of a job, each in a slot of its own.
#![tactic(auto)]

ghost use Rattle.std.specs.Prelude.{◌≡◌, ◌<◌, IfOk, OnErr, OnOk, None, length};
ghost use Rattle.mit_kernel.specs.Finishing.{Finishes};
ghost use Rattle.mit_kernel.specs.Meaning.{HasInputs, HasSlot, Meaning, Takes, begun, closed, fed_row, no_rows, part_of_slot, renewed};
ghost use Rattle.mit_ops.specs.Kinds.{kind_of};
ghost use Rattle.mit_ops.specs.Parts.{Fits};

use mit_ops::{OpFault, OpSpec};
use mit_rows::Row;
use std::alloc::AllocError;

mod fed;
pub mod kit;

pub use fed::Fed;

/// How a part of an operator ended.
#[derive(Debug, Drop)]
pub enum Finished {
    /// With rows, which were added to those given.
    Rows,
    /// With a fault.
    Fault(OpFault),
}

/// What does the work of one kind of operators. Contracts see it as its kind, a count of all rows that it was fed, and its
/// slots: each an operator in a partition, with the lists of the rows that its inputs were fed.
pub trait Kernel: Drop {
    ghost meaning: { Self → Meaning };

    /// The number of its kind.
    fn kind(&self) -> u8
        ensures { result ≡ (meaning self.now).kind };

    /// Begins a slot for an operator in the partition `part` of `parts`, with empty lists.
    fn begin(&mut self, spec: &OpSpec, part: u16, parts: u16) -> Result<u64, AllocError>
        requires kind { kind_of spec.now ≡ (meaning self.old).kind }
        requires fits { Fits spec.now (no_rows spec.now) }
        requires among { part < parts }
        ensures free { IfOk result (λ slot. (meaning self.old).slots slot ≡ None) }
        ensures ok { IfOk result (λ slot. meaning self.new ≡ begun (meaning self.old) slot spec.now part parts) }
        ensures err { OnErr result (meaning self.new ≡ meaning self.old) };

    /// Adds a row to the list of an input, and counts it.
    fn feed(&mut self, slot: u64, input: u16, row: &Row) -> Result<(), AllocError>
        requires { Takes (meaning self.old) slot input row.now }
        ensures ok { OnOk result (meaning self.new ≡ fed_row (meaning self.old) slot input row.now) }
        ensures err { OnErr result (meaning self.new ≡ meaning self.old) };

    /// The part of the slot's operator over the rows that it was fed: its rows are added to `out`, or it is a fault.
    fn finish(&mut self, slot: u64, out: &mut Vec<Row>) -> Result<Finished, AllocError>
        requires { HasSlot (meaning self.old) slot }
        ensures part { IfOk result (λ end. Finishes (part_of_slot (meaning self.old) slot) end out.old.items out.new.items) }
        ensures err { OnErr result (out.new.items ≡ out.old.items) }
        ensures same { meaning self.new ≡ meaning self.old };

    /// Empties the lists of those inputs that are not to be kept.
    fn renew(&mut self, slot: u64, keep: &[bool])
        requires { HasInputs (meaning self.old) slot (length keep.now) }
        ensures { meaning self.new ≡ renewed (meaning self.old) slot keep.now };

    /// Takes a slot away.
    fn close(&mut self, slot: u64)
        requires { HasSlot (meaning self.old) slot }
        ensures { meaning self.new ≡ closed (meaning self.old) slot };

    /// How many rows it was fed in all. The count stands still at the last number of its type.
    fn fed(&self) -> u64
        ensures { result ≡ (meaning self.now).fed };
}
