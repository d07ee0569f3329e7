//! The blocks of a script, with their operators.
ghost use Rattle.std.specs.Prelude.{◌≡◌, ◌≤◌, ◌+◌, ◌*◌, IfErr, IfOk, map};
ghost use Rattle.mit_ssa.specs.Weaving.{IsSmall, StopsWeaving, Weaves, builder_place, split};
ghost use Rattle.mit_ssa.specs.Woven.{weave_adds, weave_counts, weave_of, woven_all, woven_loop};

use crate::build::Builder;
use crate::changed::{in_order, mark_all};
use crate::defined::{keep, put_all};
use crate::phis::loop_phis;
use crate::stop::PlanStop;
use mit_ops::{OpSpec, VarType};
use mit_script::Stmt;
use std::alloc::Global;

/// Adds the statements of a block.
#[cycle(weave_all)]
pub(crate) fn weave_all(
    alloc: Global,
    types: &[VarType],
    before: Builder,
    block: &[Stmt],
) -> Result<Builder, PlanStop>
    requires small { IsSmall before }
    ensures woven { IfOk result (Weaves (weave_counts (map (weave_of types.now) block.now)) (weave_adds (map (weave_of types.now) block.now))
        (woven_all (map (weave_of types.now) block.now) (builder_place before)) before) }
    ensures large { IfErr result (StopsWeaving (woven_all (map (weave_of types.now) block.now) (builder_place before)).operator) }
{
    let mut built = before;
    for stmt in block {
        built = weave_one(alloc, types, built, stmt)?;
    }
    Ok(built)
}

/// Adds the branches of an `if` and its join, after its condition.
#[cycle(weave_all)]
fn weave_if(
    alloc: Global,
    types: &[VarType],
    before: Builder,
    yes: &[Stmt],
    no: &[Stmt],
) -> Result<Builder, PlanStop>
    requires small { IsSmall before }
    requires room { before.block + 3 ≤ 3 * before.operator }
    ensures woven { IfOk result (Weaves (weave_counts (map (weave_of types.now) yes.now) + weave_counts (map (weave_of types.now) no.now))
        (3 + weave_adds (map (weave_of types.now) yes.now) + weave_adds (map (weave_of types.now) no.now))
        (split types.now (map (weave_of types.now) yes.now) (map (weave_of types.now) no.now) (builder_place before)) before) }
    ensures large { IfErr result (StopsWeaving
        (split types.now (map (weave_of types.now) yes.now) (map (weave_of types.now) no.now) (builder_place before)).operator) }
{
    let assigned = in_order(mark_all(mark_all(Vec::new(alloc), yes)?, no)?);
    let olds = keep(alloc, &before.defined, &assigned)?;
    let (outside, defined) = before.parted(alloc);
    let inside = Builder::start(
        alloc,
        outside.block + 1,
        outside.operator,
        outside.statement,
        defined,
    );
    let last = weave_all(alloc, types, inside, yes)?;
    let ones = keep(alloc, &last.defined, &assigned)?;
    let (first, defined) = last.parted(alloc);
    let beside = Builder::start(
        alloc,
        first.block + 1,
        first.operator,
        first.statement,
        put_all(defined, &olds)?,
    );
    let second = weave_all(alloc, types, beside, no)?;
    outside.join(alloc, types.len(), &ones, first, second)
}

/// Adds a `while`.
#[cycle(weave_all)]
fn weave_while(
    alloc: Global,
    types: &[VarType],
    before: Builder,
    op: &OpSpec,
    args: &[u32],
    body: &[Stmt],
) -> Result<Builder, PlanStop>
    requires small { IsSmall before }
    ensures woven { IfOk result (Weaves (1 + weave_counts (map (weave_of types.now) body.now)) (3 + weave_adds (map (weave_of types.now) body.now))
        (woven_loop types.now op.now args.now (map (weave_of types.now) body.now) (builder_place before)) before) }
    ensures large { IfErr result (StopsWeaving (woven_loop types.now op.now args.now (map (weave_of types.now) body.now) (builder_place before)).operator) }
{
    let assigned = in_order(mark_all(Vec::new(alloc), body)?);
    let olds = keep(alloc, &before.defined, &assigned)?;
    let phis = loop_phis(alloc, types.len(), &olds)?;
    let (outside, defined) = before.parted(alloc);
    let inside = outside.enter(alloc, defined, &phis)?;
    let last = weave_all(alloc, types, inside, body)?;
    Ok(outside.turn(alloc, types, last, &olds, &phis, op, args)?)
}

/// Adds a statement.
#[cycle(weave_all)]
fn weave_one(
    alloc: Global,
    types: &[VarType],
    before: Builder,
    stmt: &Stmt,
) -> Result<Builder, PlanStop>
    requires small { IsSmall before }
    ensures woven { IfOk result (Weaves (weave_of types.now stmt.now).count (weave_of types.now stmt.now).added
        ((weave_of types.now stmt.now).weave (builder_place before)) before) }
    ensures large { IfErr result (StopsWeaving ((weave_of types.now stmt.now).weave (builder_place before)).operator) }
{
    match stmt {
        Stmt::Assign { target, op, args } => {
            before.add(alloc, types, Some(*target), op, args.as_slice())
        }
        Stmt::Write { op, args } => before.add(alloc, types, None, op, args.as_slice()),
        Stmt::If { op, args, yes, no } => {
            let condition = before.add(alloc, types, None, op, args.as_slice())?;
            weave_if(alloc, types, condition, yes.as_slice(), no.as_slice())
        }
        Stmt::While { op, args, body } => {
            weave_while(alloc, types, before, op, args.as_slice(), body.as_slice())
        }
    }
}
