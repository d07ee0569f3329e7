//! A slot of the kernel: what it was fed, with an index of its left rows.
ghost use Rattle.std.specs.Prelude.{◌≡◌, ◌<◌, IfOk, OnErr, OnOk, Some, length, take};
ghost use Rattle.mit_ops.specs.Kinds.{kind_of};
ghost use Rattle.mit_ops.specs.Parts.{Fits};
ghost use Rattle.mit_ops.specs.declared.kinds.OpSpec.TheVariants as op;
ghost use Rattle.mit_kernel.specs.Meaning.{AddsRows, kept_lists, no_rows, part_in, with_lists, with_row};

use mit_apply::hash_of;
use mit_kernel::Fed;
use mit_keyed::laws::index_law;
use mit_keyed::{Index, add_joined};
use mit_op_laws::laws::fitting_law;
use mit_ops::OpSpec;
use mit_rows::Row;
use std::alloc::{AllocError, Global};
use std::marker::Model;

/// A join in one partition of so many, with the rows that its two inputs were fed.
#[derive(Debug, Drop)]
pub struct JoinSlot {
    fed: Fed,
    index: Index,
}

impl Model for JoinSlot {
    ghost use Rattle.mit_kernel.specs.Meaning.{Slot};
    ghost use Rattle.mit_k_join.specs.Slots.{IsJoin};

    ghost Value = { Slot };

    ghost use Rattle.mit_expr.specs.contracts.expr.Expr as expr;
    ghost use Rattle.std.specs.Coded.{codes};

    ghost coded = { Prim.hlevel (codes, expr.the_row.coded) };

    ghost view = { λ s. s.fed };

    ghost invariant = { λ s. IsJoin s.fed s.index };
}

/// The columns of a join's keys, on the left and on the right.
fn join_keys(spec: &OpSpec) -> (&[u8], &[u8])
    requires { kind_of spec.now ≡ 5 }
    ensures { spec.now ≡ op.Join result.0.now result.1.now }
{
    match spec {
        OpSpec::Join { left, right } => (left.as_slice(), right.as_slice()),
        _ => unreachable!(),
    }
}

impl JoinSlot {
    /// The join in the partition `part` of `parts`, with two empty lists.
    pub fn new(alloc: Global, spec: &OpSpec, part: u16, parts: u16) -> Result<JoinSlot, AllocError>
        requires kind { kind_of spec.now ≡ 5 }
        requires fits { Fits spec.now (no_rows spec.now) }
        ensures { IfOk result (λ slot. slot
            ≡ record { spec = spec.now; part = part; parts = parts; lists = no_rows spec.now }) }
    {
        Ok(JoinSlot {
            fed: Fed::new(alloc, spec, part, parts)?,
            index: Index::new(alloc),
        })
    }

    /// Adds a row to the list of an input.
    pub fn add(&mut self, alloc: Global, input: u16, row: &Row) -> Result<(), AllocError>
        requires within { input < length self.old.lists }
        requires fits { Fits self.old.spec (with_row self.old.lists input row.now) }
        ensures ok { OnOk result (self.new ≡ with_lists (λ lists. with_row lists input row.now) self.old) }
        ensures err { OnErr result (self.new ≡ self.old) }
    {
        if input == 0 {
            self.add_left(alloc, row)
        } else {
            self.fed.add(input, row)
        }
    }

    /// Adds a left row, with its place in the index.
    fn add_left(&mut self, alloc: Global, row: &Row) -> Result<(), AllocError>
        requires within { 0 < length self.old.lists }
        requires fits { Fits self.old.spec (with_row self.old.lists 0 row.now) }
        ensures ok { OnOk result (self.new ≡ with_lists (λ lists. with_row lists 0 row.now) self.old) }
        ensures err { OnErr result (self.new ≡ self.old) }
    {
        index_law();
        let (left_keys, _) = join_keys(self.fed.spec());
        let hash = hash_of(left_keys, row);
        let place = self.fed.list(0).len();
        self.index.note(alloc, hash, place)?;
        let added = self.fed.add(0, row);
        if added.is_err() {
            self.index.forget(hash);
        }
        added
    }

    /// Empties the lists of those inputs that are not to be kept.
    pub fn renew(&mut self, alloc: Global, keep: &[bool])
        ensures { self.new ≡ with_lists (kept_lists keep.now) self.old }
    {
        index_law();
        self.fed.renew(keep);
        let stays = keep.first().copied().unwrap_or(true);
        if !stays {
            self.index = Index::new(alloc);
        }
    }

    /// Adds the join's rows. Where it stops, `out` is as before.
    pub fn write(&self, alloc: Global, out: &mut Vec<Row>) -> Result<(), AllocError>
        ensures ok { OnOk result (AddsRows (part_in (Some self.now)) out.old.items out.new.items) }
        ensures err { OnErr result (out.new.items ≡ out.old.items) }
    {
        let before = out.len();
        let added = self.add_all(alloc, out);
        if added.is_err() {
            out.truncate(before);
        }
        added
    }

    /// Adds the join's rows. Where it stops, some may stay.
    fn add_all(&self, alloc: Global, out: &mut Vec<Row>) -> Result<(), AllocError>
        ensures ok { OnOk result (AddsRows (part_in (Some self.now)) out.old.items out.new.items) }
        ensures err { OnErr result (take (length out.old.items) out.new.items ≡ out.old.items) }
    {
        fitting_law();
        index_law();
        let (left_keys, right_keys) = join_keys(self.fed.spec());
        let (lefts, rights) = (self.fed.list(0), self.fed.list(1));
        add_joined(
            alloc,
            &self.index,
            lefts,
            left_keys,
            rights,
            right_keys,
            out,
        )
    }
}
