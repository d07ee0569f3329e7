//! A slot of the kernel: an operator of its kinds, and the answer over the rows that it was fed.
ghost use Rattle.std.specs.Prelude.{◌≡◌, ◌<◌, [], Some, IfOk, OnErr, OnOk, length};
ghost use Rattle.std.specs.FinMap as fin;
ghost use Rattle.mit_rows.specs.Bags.{all_rows};
ghost use Rattle.mit_ops.specs.Answers.{at_row, settled};
ghost use Rattle.mit_ops.specs.Forms.{part_answer};
ghost use Rattle.mit_ops.specs.Kinds.{bag_inputs_of, kind_of};
ghost use Rattle.mit_ops.specs.Operators.{bags_in, captures_among, form_of};
ghost use Rattle.mit_ops.specs.Parts.{Fits};
ghost use Rattle.mit_kernel.specs.Finishing.{Finishes};
ghost use Rattle.mit_kernel.specs.Meaning.{kept_lists, no_rows, part_in, with_lists, with_row};
ghost use Rattle.mit_k_rows.specs.Gives.{rows_given, sum_given};
ghost use Rattle.mit_k_rows.specs.RowKinds.{IsRowKind};

use crate::each::{add_once, add_rows, rows_may_be_asked};
use mit_apply::Answer;
use mit_kernel::{Fed, Finished};
use mit_ops::OpSpec;
use mit_rows::{Row, Value};
use std::alloc::{AllocError, Global};
use std::marker::Model;

/// A slot whose operator is of one of the kernel's kinds.
#[derive(Drop)]
pub struct Entry {
    fed: Fed,
}

impl Model for Entry {
    ghost use Rattle.mit_kernel.specs.Meaning.{Slot};
    ghost use Rattle.mit_ops.specs.Kinds.{kind_of};
    ghost use Rattle.mit_k_rows.specs.RowKinds.{IsRowKind};

    ghost Value = { Slot };

    ghost use Rattle.mit_expr.specs.contracts.expr.Expr as expr;
    ghost use Rattle.std.specs.Coded.{codes};

    ghost coded = { Prim.hlevel (codes, expr.the_row.coded) };

    ghost view = { λ e. e.fed };

    ghost invariant = { λ e. IsRowKind (kind_of e.fed.spec) };
}

impl Entry {
    /// The operator in the partition `part` of `parts`, with an empty list for each input.
    pub fn new(alloc: Global, spec: &OpSpec, part: u16, parts: u16) -> Result<Entry, AllocError>
        requires kind { IsRowKind (kind_of spec.now) }
        requires fits { Fits spec.now (no_rows spec.now) }
        ensures { IfOk result (λ entry.
            entry ≡ record { spec = spec.now; part = part; parts = parts; lists = no_rows spec.now }) }
    {
        Ok(Entry {
            fed: Fed::new(alloc, spec, part, parts)?,
        })
    }

    /// Adds a copy of a row to the list of an input.
    pub fn add(&mut self, input: u16, row: &Row) -> Result<(), AllocError>
        requires within { input < length self.old.lists }
        requires fits { Fits self.old.spec (with_row self.old.lists input row.now) }
        ensures ok { OnOk result (self.new
            ≡ with_lists (λ lists. with_row lists input row.now) self.old) }
        ensures err { OnErr result (self.new ≡ self.old) }
    {
        self.fed.add(input, row)
    }

    /// Empties the lists of those inputs that are not to be kept.
    pub fn renew(&mut self, keep: &[bool])
        ensures { self.new ≡ with_lists (kept_lists keep.now) self.old }
    {
        self.fed.renew(keep);
    }

    /// The part of the operator: its rows are added to `out`, or it is a fault.
    pub fn finish(&self, alloc: Global, out: &mut Vec<Row>) -> Result<Finished, AllocError>
        ensures part { IfOk result (λ end.
            Finishes (part_in (Some self.now)) end out.old.items out.new.items) }
        ensures err { OnErr result (out.new.items ≡ out.old.items) }
    {
        match self.answer(alloc)?.finish() {
            Ok(mut rows) => {
                out.append(&mut rows)?;
                Ok(Finished::Rows)
            }
            Err(fault) => Ok(Finished::Fault(fault)),
        }
    }

    /// The part of the operator: no rows where a captured scalar is not there.
    fn answer(&self, alloc: Global) -> Result<Answer, AllocError>
        ensures { IfOk result (λ answer. answer ≡ part_in (Some self.now)) }
    {
        match self.fed.captures(alloc)? {
            Some(captures) => self.answer_with(alloc, &captures),
            None => Ok(Answer::new(alloc)),
        }
    }

    /// The part of the operator with these captured scalars.
    fn answer_with(&self, alloc: Global, captures: &[Value]) -> Result<Answer, AllocError>
        requires { captures_among self.now.spec self.now.lists ≡ Some captures.now }
        ensures { IfOk result (λ answer. answer
            ≡ part_answer (form_of self.now.spec fin.empty captures.now) self.now.parts self.now.part
            (bags_in self.now.spec self.now.lists)) }
    {
        if self.fed.spec().bag_inputs() > 0 {
            return self.answer_bags(alloc, captures);
        }
        if self.fed.part() == 0 {
            return self.answer_once(alloc, captures);
        }
        Ok(Answer::new(alloc))
    }

    /// What the rows of all bags give.
    fn answer_bags(&self, alloc: Global, captures: &[Value]) -> Result<Answer, AllocError>
        requires { captures_among self.now.spec self.now.lists ≡ Some captures.now }
        ensures { IfOk result (λ answer. answer
            ≡ sum_given self.now.spec captures.now (all_rows (bags_in self.now.spec self.now.lists))) }
    {
        rows_may_be_asked();
        let mut answer = Answer::new(alloc);
        let spec = self.fed.spec();
        for input in 0..spec.bag_inputs() {
            add_rows(alloc, spec, captures, self.fed.list(input), &mut answer)?;
        }
        Ok(answer)
    }

    /// What an operator that takes no bags gives.
    fn answer_once(&self, alloc: Global, captures: &[Value]) -> Result<Answer, AllocError>
        requires captured { captures_among self.now.spec self.now.lists ≡ Some captures.now }
        requires once { bag_inputs_of self.now.spec ≡ 0 }
        ensures { IfOk result (λ answer. answer
            ≡ settled (at_row [] (rows_given self.now.spec captures.now []))) }
    {
        rows_may_be_asked();
        let mut answer = Answer::new(alloc);
        add_once(alloc, self.fed.spec(), captures, &mut answer)?;
        Ok(answer)
    }
}
