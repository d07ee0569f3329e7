//! A slot of a kernel, as kernels store it.
ghost use Rattle.std.specs.Prelude.{◌≡◌, ◌<◌, [], IfOk, OnErr, OnOk, length, map, option_map, replicate};
ghost use Rattle.mit_ops.specs.Forms.{rows_at};
ghost use Rattle.mit_ops.specs.Operators.{captured, captures_among, scalar_in};
ghost use Rattle.mit_ops.specs.Parts.{Fits};
ghost use Rattle.mit_kernel.specs.Meaning.{kept_lists, no_rows, with_lists, with_row};

use mit_op_laws::laws::fewer_rows_law;
use mit_ops::OpSpec;
use mit_rows::{Row, Value};
use std::alloc::{AllocError, Global};
use std::marker::Model;

/// An operator in one partition of so many, with the rows that its inputs were fed. They fit the operator.
#[derive(Debug, Drop)]
pub struct Fed {
    spec: OpSpec,
    part: u16,
    parts: u16,
    lists: Vec<Vec<Row>>,
}

impl Model for Fed {
    ghost use Rattle.std.specs.Prelude.{map};
    ghost use Rattle.mit_kernel.specs.Meaning.{Slot};
    ghost use Rattle.mit_ops.specs.Parts.{Fits};

    ghost Value = { Slot };

    ghost use Rattle.mit_expr.specs.contracts.expr.Expr as expr;
    ghost use Rattle.std.specs.Coded.{codes};

    ghost coded = { Prim.hlevel (codes, expr.the_row.coded) };

    ghost view = { λ f. record {
      spec = f.spec;
      part = f.part;
      parts = f.parts;
      lists = map (λ rows. rows.items) f.lists.items;
    } };

    ghost invariant = { λ f. Fits f.spec (map (λ rows. rows.items) f.lists.items) };
}

impl Fed {
    /// The operator in the partition `part` of `parts`, with an empty list for each input.
    pub fn new(alloc: Global, spec: &OpSpec, part: u16, parts: u16) -> Result<Fed, AllocError>
        requires { Fits spec.now (no_rows spec.now) }
        ensures { IfOk result (λ fed.
            fed ≡ record { spec = spec.now; part = part; parts = parts; lists = no_rows spec.now }) }
    {
        let inputs = u64::from(spec.bag_inputs()) + u64::from(spec.captures());
        let lists = empty_lists(alloc, inputs)?;
        let spec = spec.copy(alloc)?;
        Ok(Fed {
            spec,
            part,
            parts,
            lists,
        })
    }

    /// Adds a copy of a row to the list of an input.
    pub fn add(&mut self, input: u16, row: &Row) -> Result<(), AllocError>
        requires within { input < length self.old.lists }
        requires fits { Fits self.old.spec (with_row self.old.lists input row.now) }
        ensures ok { OnOk result (self.new
            ≡ with_lists (λ lists. with_row lists input row.now) self.old) }
        ensures err { OnErr result (self.new ≡ self.old) }
    {
        let row = row.copy()?;
        push_to(&mut self.lists, usize::from(input), row)
    }

    /// Empties the lists of those inputs that are not to be kept.
    pub fn renew(&mut self, keep: &[bool])
        ensures { self.new ≡ with_lists (kept_lists keep.now) self.old }
    {
        fewer_rows_law();
        empty_others(&mut self.lists, keep);
    }

    /// The operator.
    pub fn spec(&self) -> &OpSpec
        ensures value { result.now ≡ self.now.spec }
        ensures fits { Fits self.now.spec self.now.lists }
    {
        &self.spec
    }

    /// The number of the partition.
    pub fn part(&self) -> u16
        ensures { result ≡ self.now.part }
    {
        self.part
    }

    /// The rows that an input was fed: none where there is no such input.
    pub fn list(&self, input: u16) -> &[Row]
        ensures { result.now ≡ rows_at self.now.lists input }
    {
        match self.lists.get(usize::from(input)) {
            Some(rows) => rows,
            None => &[],
        }
    }

    /// The values of the captured scalars, or none where one of them has not exactly one row of one column.
    pub fn captures(&self, alloc: Global) -> Result<Option<Vec<Value>>, AllocError>
        ensures { IfOk result (λ found. option_map (λ values. values.items) found
            ≡ captures_among self.now.spec self.now.lists) }
    {
        let (_, scalars) = self.lists.split_at(usize::from(self.spec.bag_inputs()));
        all_captured(alloc, scalars)
    }
}

/// So many empty lists.
fn empty_lists(alloc: Global, count: u64) -> Result<Vec<Vec<Row>>, AllocError>
    ensures { IfOk result (λ lists. map (λ rows. rows.items) lists.items ≡ replicate count []) }
{
    let mut lists = Vec::new(alloc);
    for _input in 0..count {
        lists.push(Vec::new(alloc))?;
    }
    Ok(lists)
}

/// Adds a row to one of the lists.
fn push_to(lists: &mut Vec<Vec<Row>>, input: usize, row: Row) -> Result<(), AllocError>
    requires { input < length lists.old.items }
    ensures ok { OnOk result (map (λ rows. rows.items) lists.new.items
        ≡ with_row (map (λ rows. rows.items) lists.old.items) input row) }
    ensures err { OnErr result (map (λ rows. rows.items) lists.new.items
        ≡ map (λ rows. rows.items) lists.old.items) }
{
    lists[input].push(row)?;
    Ok(())
}

/// Empties the lists that are not to be kept.
fn empty_others(lists: &mut Vec<Vec<Row>>, keep: &[bool])
    ensures { map (λ rows. rows.items) lists.new.items
        ≡ kept_lists keep.now (map (λ rows. rows.items) lists.old.items) }
{
    let count = keep.len().min(lists.len());
    for input in 0..count {
        if !keep[input] {
            lists[input].clear();
        }
    }
}

/// The one value of a scalar's rows.
fn scalar_of(rows: &[Row]) -> Result<Option<Value>, AllocError>
    ensures { IfOk result (λ found. found ≡ scalar_in rows.now) }
{
    let [row] = rows else {
        return Ok(None);
    };
    let [value] = row.values() else {
        return Ok(None);
    };
    Ok(Some(value.copy()?))
}

/// The one value of each of these scalars.
fn all_captured(alloc: Global, scalars: &[Vec<Row>]) -> Result<Option<Vec<Value>>, AllocError>
    ensures { IfOk result (λ found. option_map (λ values. values.items) found
        ≡ captured (map (λ rows. rows.items) scalars.now)) }
{
    let mut values = Vec::new(alloc);
    for rows in scalars {
        let Some(value) = scalar_of(rows)? else {
            return Ok(None);
        };
        values.push(value)?;
    }
    Ok(Some(values))
}
