//! An operator over whole bags.
ghost use Rattle.std.specs.Prelude.{◌≡◌, ◌≢◌, [], ◌∷◌, IfOk, length, map};
ghost use Rattle.std.specs.FinMap as fin;
ghost use Rattle.mit_rows.specs.Bags.{bag_sum};
ghost use Rattle.mit_ops.specs.Answers.{BagOrFault};
ghost use Rattle.mit_ops.specs.Kinds.{bag_inputs_of, kind_of};
ghost use Rattle.mit_ops.specs.Operators.{whole};
ghost use Rattle.mit_ops.specs.Parts.{Fits};
ghost use Rattle.mit_step.specs.Stepping.{GivesWhole, with_captures};

mod answers;
mod groups;
mod join;
mod once;
mod rows;

use crate::loose::{Loose, add_copies, copy_rows};
use crate::whole::answers::settle;
use crate::whole::groups::{distinct, reduced};
use crate::whole::join::joined_rows;
use crate::whole::once::{counted, made_row, only, summed};
use crate::whole::rows::{filtered, flattened, mapped};
use mit_bags::Bag;
use mit_bags::laws::{bags_are_rows_in_order, bags_are_sorted_lists};
use mit_keyed::laws::{distinct_law, groups_law};
use mit_op_laws::laws::{fewer_rows_law, fitting_groups_law, fitting_law, partition_law};
use mit_ops::{OpFault, OpSpec};
use mit_rows::{Row, Value};
use std::alloc::{AllocError, Global};
use std::rc::Rc;
use std::slice;

/// Why an operator gives no bag.
#[derive(Debug, Drop)]
pub enum WholeStop {
    /// It is at fault.
    Fault(OpFault),
    /// Memory ran out.
    NoMemory,
}

impl From<AllocError> for WholeStop {
    ghost use Rattle.std.specs.Prelude.{◌≡◌};
    ghost use Rattle.mit_step.specs.declared.whole.WholeStop.TheVariants.{NoMemory};

    ghost from_gives = { λ _ stop. stop ≡ NoMemory };

    fn from(_: AllocError) -> WholeStop {
        WholeStop::NoMemory
    }
}

/// What an operator gives over whole bags and the values that it captures: a bag, or its fault.
///
/// It is neither a read nor a write, and its bags are as many as it takes.
pub fn whole_bag(
    alloc: Global,
    spec: &OpSpec,
    bags: &[Rc<Bag>],
    captures: &[Value],
) -> Result<Bag, WholeStop>
    requires kind { (kind_of spec.now ≢ 1) × (kind_of spec.now ≢ 14) }
    requires count { length bags.now ≡ bag_inputs_of spec.now }
    requires fits { Fits spec.now (with_captures (map (λ bag. bag.value) bags.now) captures.now) }
    ensures { GivesWhole (whole spec.now (with_captures (map (λ bag. bag.value) bags.now) captures.now)
        fin.empty) result }
{
    match bags {
        [] => in_order(of_none(alloc, spec, captures)),
        [bag] => in_order(of_one(alloc, spec, bag.rows(), captures)),
        [left, right] => in_order(of_two(alloc, spec, left.rows(), right.rows(), captures)),
        _ => unreachable!(),
    }
}

/// The same answer with its rows in order.
fn in_order(answer: Result<Loose, WholeStop>) -> Result<Bag, WholeStop>
    ensures { (due : BagOrFault) → GivesWhole due answer → GivesWhole due result }
{
    Ok(answer?.into_bag()?)
}

/// The same over bags whose rows stand in any order, and it gives such a bag.
pub(crate) fn whole_loose(
    alloc: Global,
    spec: &OpSpec,
    bags: &[Rc<Loose>],
    captures: &[Value],
) -> Result<Loose, WholeStop>
    requires kind { (kind_of spec.now ≢ 1) × (kind_of spec.now ≢ 14) }
    requires count { length bags.now ≡ bag_inputs_of spec.now }
    requires fits { Fits spec.now (with_captures (map (λ bag. bag.value) bags.now) captures.now) }
    ensures { GivesWhole (whole spec.now (with_captures (map (λ bag. bag.value) bags.now) captures.now)
        fin.empty) result }
{
    match bags {
        [] => of_none(alloc, spec, captures),
        [bag] => of_loose(alloc, spec, bag, captures),
        [left, right] => of_two_loose(alloc, spec, left, right, captures),
        _ => unreachable!(),
    }
}

/// What an operator gives that takes one bag, whose rows stand in any order.
fn of_loose(
    alloc: Global,
    spec: &OpSpec,
    bag: &Loose,
    captures: &[Value],
) -> Result<Loose, WholeStop>
    requires kind { kind_of spec.now ≢ 14 }
    requires count { bag_inputs_of spec.now ≡ 1 }
    requires fits { Fits spec.now (with_captures (bag.now ∷ []) captures.now) }
    ensures { GivesWhole (whole spec.now (with_captures (bag.now ∷ []) captures.now) fin.empty) result }
{
    partition_law();
    fewer_rows_law();
    bags_are_rows_in_order();
    bags_are_sorted_lists();
    of_one(alloc, spec, bag.rows(), captures)
}

/// What an operator gives that takes two bags, whose rows stand in any order.
fn of_two_loose(
    alloc: Global,
    spec: &OpSpec,
    left: &Loose,
    right: &Loose,
    captures: &[Value],
) -> Result<Loose, WholeStop>
    requires count { bag_inputs_of spec.now ≡ 2 }
    requires fits { Fits spec.now (with_captures (left.now ∷ right.now ∷ []) captures.now) }
    ensures { GivesWhole (whole spec.now (with_captures (left.now ∷ right.now ∷ []) captures.now)
        fin.empty) result }
{
    partition_law();
    fewer_rows_law();
    bags_are_rows_in_order();
    bags_are_sorted_lists();
    of_two(alloc, spec, left.rows(), right.rows(), captures)
}

/// What an operator gives that takes no bag.
fn of_none(alloc: Global, spec: &OpSpec, captures: &[Value]) -> Result<Loose, WholeStop>
    requires kind { kind_of spec.now ≢ 1 }
    requires count { bag_inputs_of spec.now ≡ 0 }
    requires fits { Fits spec.now (with_captures [] captures.now) }
    ensures { GivesWhole (whole spec.now (with_captures [] captures.now) fin.empty) result }
{
    fitting_law();
    match spec {
        OpSpec::Scalar { expr } => made_row(alloc, slice::from_ref(expr), captures),
        OpSpec::MakeRow { exprs } => made_row(alloc, exprs.as_slice(), captures),
        OpSpec::Empty { .. } => Ok(Loose::from_rows(Vec::new(alloc))),
        _ => unreachable!(),
    }
}

/// What an operator gives that takes one bag, over its rows in any order.
fn of_one(
    alloc: Global,
    spec: &OpSpec,
    rows: &[Row],
    captures: &[Value],
) -> Result<Loose, WholeStop>
    requires kind { kind_of spec.now ≢ 14 }
    requires count { bag_inputs_of spec.now ≡ 1 }
    requires fits { Fits spec.now (with_captures (rows.now ∷ []) captures.now) }
    ensures { GivesWhole (whole spec.now (with_captures (rows.now ∷ []) captures.now) fin.empty) result }
{
    fitting_law();
    fitting_groups_law();
    groups_law();
    distinct_law();
    bags_are_sorted_lists();
    match spec {
        OpSpec::Map { exprs } => settle(mapped(alloc, exprs.as_slice(), rows, captures)?),
        OpSpec::Filter { expr } => settle(filtered(alloc, expr, rows, captures)?),
        OpSpec::FlatMap { flat } => flattened(alloc, flat, rows, captures),
        OpSpec::Reduce { keys, agg } => settle(reduced(alloc, keys.as_slice(), *agg, rows)?),
        OpSpec::Distinct => settle(distinct(alloc, rows)?),
        OpSpec::Only => only(alloc, rows),
        OpSpec::Count => counted(alloc, rows),
        OpSpec::Sum { column } => summed(alloc, *column, rows),
        OpSpec::Copy => Ok(Loose::from_rows(copy_rows(alloc, rows)?)),
        _ => unreachable!(),
    }
}

/// What an operator gives that takes two bags, over their rows in any order.
fn of_two(
    alloc: Global,
    spec: &OpSpec,
    left: &[Row],
    right: &[Row],
    captures: &[Value],
) -> Result<Loose, WholeStop>
    requires count { bag_inputs_of spec.now ≡ 2 }
    requires fits { Fits spec.now (with_captures (left.now ∷ right.now ∷ []) captures.now) }
    ensures { GivesWhole (whole spec.now (with_captures (left.now ∷ right.now ∷ []) captures.now)
        fin.empty) result }
{
    fitting_law();
    bags_are_sorted_lists();
    match spec {
        OpSpec::Join {
            left: by_left,
            right: by_right,
        } => Ok(joined_rows(alloc, by_left.as_slice(), left, by_right.as_slice(), right)?),
        OpSpec::Union => Ok(union(alloc, left, right)?),
        _ => unreachable!(),
    }
}

/// The sum of two bags.
fn union(alloc: Global, left: &[Row], right: &[Row]) -> Result<Loose, AllocError>
    ensures { IfOk result (λ bag. bag ≡ bag_sum (left.now ∷ right.now ∷ [])) }
{
    let mut rows = Vec::with_capacity(alloc, left.len().saturating_add(right.len()))?;
    add_copies(left, &mut rows)?;
    add_copies(right, &mut rows)?;
    Ok(Loose::from_rows(rows))
}
