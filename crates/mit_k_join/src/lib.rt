//! The kernel of joins. A slot keeps an index of its left rows, so that a right row costs its matches.
#![tactic(auto)]

ghost use Rattle.std.specs.Prelude.{◌≡◌, IfOk, None};
ghost use Rattle.mit_k_join.specs.Joins.{kernel_meaning};

use mit_kernel::{Finished, Kernel};
use mit_ops::OpSpec;
use mit_rows::Row;
use slab::Slab;
use std::alloc::{AllocError, Global};

mod slot;

use slot::JoinSlot;

/// The kernel of joins, which are kind 5.
#[derive(Drop)]
pub struct JoinKernel {
    alloc: Global,
    slots: Slab<JoinSlot>,
    fed: u64,
}

impl JoinKernel {
    /// A kernel without slots, which was fed no rows.
    pub fn new(alloc: Global) -> Result<JoinKernel, AllocError>
        ensures { IfOk result (λ kernel. kernel_meaning kernel
            ≡ record { kind = 5; fed = 0; slots = λ slot. None }) }
    {
        Ok(JoinKernel {
            alloc,
            slots: Slab::new(alloc),
            fed: 0,
        })
    }
}

impl Kernel for JoinKernel {
    ghost meaning = { kernel_meaning };

    fn kind(&self) -> u8 {
        5
    }

    fn begin(&mut self, spec: &OpSpec, part: u16, parts: u16) -> Result<u64, AllocError> {
        let slot = JoinSlot::new(self.alloc, spec, part, parts)?;
        let key = self.slots.insert(slot)?;
        Ok(key as u64)
    }

    fn feed(&mut self, slot: u64, input: u16, row: &Row) -> Result<(), AllocError> {
        self.slots[slot as usize].add(self.alloc, input, row)?;
        self.fed = self.fed.saturating_add(1);
        Ok(())
    }

    fn finish(&mut self, slot: u64, out: &mut Vec<Row>) -> Result<Finished, AllocError> {
        self.slots[slot as usize].write(self.alloc, out)?;
        Ok(Finished::Rows)
    }

    fn renew(&mut self, slot: u64, keep: &[bool]) {
        self.slots[slot as usize].renew(self.alloc, keep);
    }

    fn close(&mut self, slot: u64) {
        self.slots.remove(slot as usize);
    }

    fn fed(&self) -> u64 {
        self.fed
    }
}
