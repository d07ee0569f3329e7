//! A slot of a kernel: an operator in one partition of so many, with what is kept of the rows that it was fed.
ghost use Rattle.std.specs.Prelude.{◌≡◌, ◌<◌, IfOk, OnErr, OnOk, Some, length};
ghost use Rattle.mit_ops.specs.Kinds.{kind_of};
ghost use Rattle.mit_ops.specs.Parts.{Fits};
ghost use Rattle.mit_kernel.specs.Meaning.{kept_lists, no_rows, part_in, with_lists, with_row};
ghost use Rattle.mit_k_group.specs.GroupKinds.{IsGroupKind};

use crate::history::History;
use crate::running::Running;
use mit_apply::Answer;
use mit_op_laws::laws::fewer_rows_law;
use mit_ops::OpSpec;
use mit_rows::Row;
use std::alloc::{AllocError, Global};
use std::marker::Model;

/// A slot. Contracts see the list of all rows that it was fed, of which only what the answer needs is kept.
#[derive(Drop)]
pub(crate) struct Entry {
    part: u16,
    parts: u16,
    running: Running,
    history: History,
}

impl Model for Entry {
    ghost use Rattle.std.specs.Prelude.{[], ◌∷◌};
    ghost use Rattle.mit_kernel.specs.Meaning.{Slot};
    ghost use Rattle.mit_ops.specs.Parts.{Fits};
    ghost use Rattle.mit_k_group.specs.Kept.{Holds, operator};

    ghost Value = { Slot };

    ghost use Rattle.mit_expr.specs.contracts.expr.Expr as expr;
    ghost use Rattle.std.specs.Coded.{codes};

    ghost coded = { Prim.hlevel (codes, expr.the_row.coded) };

    ghost view = { λ e. record { spec = operator e.running; part = e.part; parts = e.parts; lists = e.history.rows ∷ [] } };

    ghost invariant = { λ e. Holds e.running e.history.rows × Fits (operator e.running) (e.history.rows ∷ []) };
}

impl Entry {
    /// The operator in the partition `part` of `parts`, with no rows.
    pub(crate) fn new(
        alloc: Global,
        spec: &OpSpec,
        part: u16,
        parts: u16,
    ) -> Result<Entry, AllocError>
        requires kind { IsGroupKind (kind_of spec.now) }
        requires fits { Fits spec.now (no_rows spec.now) }
        ensures { IfOk result (λ entry. entry
            ≡ record { spec = spec.now; part = part; parts = parts; lists = no_rows spec.now }) }
    {
        let running = Running::new(alloc, spec)?;
        Ok(Entry {
            part,
            parts,
            running,
            history: History::new(),
        })
    }

    /// Adds a row to the list of an input, of which there is one.
    pub(crate) fn add(&mut self, alloc: Global, _input: u16, row: &Row) -> Result<(), AllocError>
        requires within { _input < length self.old.lists }
        requires fits { Fits self.old.spec (with_row self.old.lists _input row.now) }
        ensures ok { OnOk result (self.new ≡ with_lists (λ lists. with_row lists _input row.now) self.old) }
        ensures err { OnErr result (self.new ≡ self.old) }
    {
        self.running.add(alloc, row)?;
        self.history = self.history.and(row);
        Ok(())
    }

    /// The part of the operator over the rows.
    pub(crate) fn answer(&self, alloc: Global) -> Result<Answer, AllocError>
        ensures { IfOk result (λ answer. answer ≡ part_in (Some self.now)) }
    {
        if self.part != 0 && self.running.is_one() {
            return Ok(Answer::new(alloc));
        }
        self.running.answer(alloc)
    }

    /// Forgets the rows, unless they are to be kept.
    pub(crate) fn renew(&mut self, keep: &[bool])
        ensures { self.new ≡ with_lists (kept_lists keep.now) self.old }
    {
        fewer_rows_law();
        if let Some(false) = keep.first() {
            self.running.clear();
            self.history = History::new();
        }
    }
}
