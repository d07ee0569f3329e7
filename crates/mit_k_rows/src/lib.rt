//! The kernel of the operators that look at one row at a time.
#![tactic(auto)]

ghost use Rattle.std.specs.Prelude.{◌≡◌, IfOk, None};
ghost use Rattle.mit_k_rows.specs.Kernels.{rows_meaning};
ghost use Rattle.mit_k_rows.specs.RowKinds.{IsRowKind};

mod each;
mod entry;
mod kind;

use entry::Entry;
use kind::RowKind;
use mit_kernel::{Finished, Kernel};
use mit_ops::OpSpec;
use mit_rows::Row;
use slab::Slab;
use std::alloc::{AllocError, Global};

/// A kernel of one of these kinds: 0 scalars, 2 maps, 3 filters, 4 flat maps, 7 unions, 12 rows, 13 empty bags and 15 copies.
#[derive(Drop)]
pub struct RowsKernel {
    alloc: Global,
    kind: RowKind,
    slots: Slab<Entry>,
    fed: u64,
}

impl RowsKernel {
    /// A kernel of this kind, with no slots.
    pub fn new(alloc: Global, kind: u8) -> Result<RowsKernel, AllocError>
        requires { IsRowKind kind }
        ensures { IfOk result (λ kernel.
            rows_meaning kernel ≡ record { kind = kind; fed = 0; slots = λ slot. None }) }
    {
        Ok(RowsKernel {
            alloc,
            kind: RowKind::new(kind),
            slots: Slab::new(alloc),
            fed: 0,
        })
    }
}

impl Kernel for RowsKernel {
    ghost meaning = { rows_meaning };

    fn kind(&self) -> u8 {
        self.kind.number()
    }

    fn begin(&mut self, spec: &OpSpec, part: u16, parts: u16) -> Result<u64, AllocError> {
        let entry = Entry::new(self.alloc, spec, part, parts)?;
        let slot = self.slots.insert(entry)?;
        Ok(slot as u64)
    }

    fn feed(&mut self, slot: u64, input: u16, row: &Row) -> Result<(), AllocError> {
        self.slots[slot as usize].add(input, row)?;
        self.fed = self.fed.saturating_add(1);
        Ok(())
    }

    fn finish(&mut self, slot: u64, out: &mut Vec<Row>) -> Result<Finished, AllocError> {
        self.slots[slot as usize].finish(self.alloc, out)
    }

    fn renew(&mut self, slot: u64, keep: &[bool]) {
        self.slots[slot as usize].renew(keep);
    }

    fn close(&mut self, slot: u64) {
        drop(self.slots.remove(slot as usize));
    }

    fn fed(&self) -> u64 {
        self.fed
    }
}
