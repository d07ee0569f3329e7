//! The kernel of a kind of operators that groups rows.
ghost use Rattle.std.specs.Prelude.{◌≡◌, ◌<◌, IfOk, OnErr, None};
ghost use Rattle.mit_kernel.specs.Finishing.{Finishes};
ghost use Rattle.mit_k_group.specs.GroupKinds.{IsGroupKind};

use crate::entry::Entry;
use mit_apply::Answer;
use mit_kernel::{Finished, Kernel};
use mit_ops::OpSpec;
use mit_rows::Row;
use slab::Slab;
use std::alloc::{AllocError, Global};

/// The kernel of one of the kinds 6 (reductions), 8 (distinct rows), 9 (the only row), 10 (counts) and 11 (sums).
#[derive(Drop)]
pub struct GroupKernel {
    alloc: Global,
    kind: u8,
    slots: Slab<Entry>,
    fed: u64,
    ghost groups: { IsGroupKind kind },
}

impl GroupKernel {
    ghost use Rattle.mit_k_group.specs.GroupMeaning.{group_meaning};

    /// A kernel of this kind, with no slots.
    pub fn new(alloc: Global, kind: u8) -> Result<GroupKernel, AllocError>
        requires { IsGroupKind kind }
        ensures { IfOk result (λ kernel. group_meaning kernel ≡ record { kind = kind; fed = 0; slots = λ slot. None }) }
    {
        Ok(GroupKernel {
            alloc,
            kind,
            slots: Slab::new(alloc),
            fed: 0,
        })
    }
}

impl Kernel for GroupKernel {
    ghost use Rattle.mit_k_group.specs.GroupMeaning.{group_meaning};

    ghost meaning = { group_meaning };

    fn kind(&self) -> u8 {
        self.kind
    }

    fn begin(&mut self, spec: &OpSpec, part: u16, parts: u16) -> Result<u64, AllocError> {
        let entry = Entry::new(self.alloc, spec, part, parts)?;
        let slot = self.slots.insert(entry)?;
        Ok(slot as u64)
    }

    fn feed(&mut self, slot: u64, input: u16, row: &Row) -> Result<(), AllocError> {
        self.slots[slot as usize].add(self.alloc, input, row)?;
        self.fed = self.fed.saturating_add(1);
        Ok(())
    }

    fn finish(&mut self, slot: u64, out: &mut Vec<Row>) -> Result<Finished, AllocError> {
        let answer = self.slots[slot as usize].answer(self.alloc)?;
        pour(answer, out)
    }

    fn renew(&mut self, slot: u64, keep: &[bool]) {
        self.slots[slot as usize].renew(keep);
    }

    fn close(&mut self, slot: u64) {
        self.slots.remove(slot as usize);
    }

    fn fed(&self) -> u64 {
        self.fed
    }
}

/// Adds the rows of an answer to others, or gives its fault.
fn pour(answer: Answer, out: &mut Vec<Row>) -> Result<Finished, AllocError>
    ensures part { IfOk result (λ end. Finishes answer end out.old.items out.new.items) }
    ensures err { OnErr result (out.new.items ≡ out.old.items) }
{
    match answer.finish() {
        Ok(mut rows) => {
            out.append(&mut rows)?;
            Ok(Finished::Rows)
        }
        Err(fault) => Ok(Finished::Fault(fault)),
    }
}
