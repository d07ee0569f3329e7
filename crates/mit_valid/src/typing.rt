//! Types of a plan: whether there are some that fit, and what branches and routes need of them.
ghost use Rattle.std.specs.Prelude.{◌≡◌, ◌<◌, IfOk, length};
ghost use Rattle.mit_rows.specs.declared.value.ColType.TheVariants.{Bool as Truth};
ghost use Rattle.mit_ops.specs.Results.{AreBags, scalar};
ghost use Rattle.mit_plan.specs.Types.{HasOperands, type_at};
ghost use Rattle.mit_plan.specs.Valid.{last_of, route_wanted};
ghost use Rattle.mit_valid.specs.Deciding.{ListsStand, PathsStand, Tells, TypesStand};
ghost use Rattle.mit_valid.specs.Inferred.{PhisFit, RoutesGiven, TruthsGiven};

use crate::inferring::infer_types;
use mit_ops::{Leave, Route, VarType, route_of};
use mit_plan::{Edge, Plan, PlanBlock};
use mit_rows::ColType;
use std::alloc::{AllocError, Global};

/// Whether two types are the same.
fn is_same_type(one: &VarType, other: &VarType) -> bool
    ensures { Tells result (one.now ≡ other.now) }
{
    one.scalar == other.scalar && one.cols.as_slice() == other.cols.as_slice()
}

/// Whether each operand of an operator has its type.
fn operands_fit(plan: &Plan, types: &[VarType], op: u32) -> bool
    requires lists { ListsStand plan.now }
    requires many { length types.now ≡ length plan.now.ops }
    requires op { op < length plan.now.ops }
    ensures { Tells result (HasOperands plan.now types.now op) }
{
    for edge in plan.edges_to(op) {
        let from = plan.edges()[*edge as usize].from;
        if !is_same_type(&types[from as usize], &types[op as usize]) {
            return false;
        }
    }
    true
}

/// Whether each operand of each phi has the phi's type.
fn phis_fit(plan: &Plan, types: &[VarType]) -> bool
    requires lists { ListsStand plan.now }
    requires many { length types.now ≡ length plan.now.ops }
    ensures { Tells result (PhisFit plan.now types.now) }
{
    for op in 0..plan.ops().len() {
        if plan.ops()[op].phi > 0 && !operands_fit(plan, types, op as u32) {
            return false;
        }
    }
    true
}

/// Whether this is the type of a truth value as a scalar.
fn is_truth(is: &VarType) -> bool
    ensures { Tells result (is.now ≡ scalar Truth) }
{
    is.scalar && is.cols.as_slice() == [ColType::Bool].as_slice()
}

/// Whether a block's last operator gives a truth value as a scalar.
fn gives_truth(types: &[VarType], block: &PlanBlock) -> bool
    ensures { Tells result (type_at types.now (last_of block.now) ≡ scalar Truth) }
{
    let end = block.first as usize + block.count as usize;
    match types.get(end.saturating_sub(1)) {
        Some(is) => is_truth(is),
        None => false,
    }
}

/// Whether the last operator of each block that is left by a branch gives a truth value as a scalar.
fn truths_given(plan: &Plan, types: &[VarType]) -> bool
    ensures { Tells result (TruthsGiven plan.now types.now) }
{
    for block in plan.blocks() {
        if let Leave::Branch { .. } = block.leave
            && !gives_truth(types, block)
        {
            return false;
        }
    }
    true
}

/// Whether two routes are the same.
fn is_same_route(one: &Route, other: &Route) -> bool
    ensures { Tells result (one.now ≡ other.now) }
{
    match (one, other) {
        (Route::Forward, Route::Forward) => true,
        (Route::Gather, Route::Gather) => true,
        (Route::Broadcast, Route::Broadcast) => true,
        (Route::ByKey(columns), Route::ByKey(others)) => columns.as_slice() == others.as_slice(),
        _ => false,
    }
}

/// Whether the route of an edge is the one that is wanted.
fn route_fits(
    alloc: Global,
    plan: &Plan,
    types: &[VarType],
    edge: &Edge,
) -> Result<bool, AllocError>
    requires from { edge.now.from < length types.now }
    requires to { edge.now.to < length plan.now.ops }
    requires wide { AreBags types.now }
    ensures { IfOk result (λ fits. Tells fits
        (edge.now.route ≡ route_wanted plan.now types.now edge.now)) }
{
    let to = &plan.ops()[edge.to as usize];
    if to.phi > 0 {
        return Ok(is_same_route(&edge.route, &Route::Forward));
    }
    let width = types[edge.from as usize].cols.as_slice().len();
    let wanted = route_of(alloc, &to.spec, edge.input, width as u8)?;
    Ok(is_same_route(&edge.route, &wanted))
}

/// Whether the route of each edge is the one that is wanted.
fn routes_fit(alloc: Global, plan: &Plan, types: &[VarType]) -> Result<bool, AllocError>
    requires lists { ListsStand plan.now }
    requires many { length types.now ≡ length plan.now.ops }
    requires wide { AreBags types.now }
    ensures { IfOk result (λ fit. Tells fit (RoutesGiven plan.now types.now)) }
{
    for edge in plan.edges() {
        if !route_fits(alloc, plan, types, edge)? {
            return Ok(false);
        }
    }
    Ok(true)
}

/// Whether they hold.
pub(crate) fn types_stand(alloc: Global, plan: &Plan) -> Result<bool, AllocError>
    requires lists { ListsStand plan.now }
    requires paths { PathsStand plan.now }
    ensures { IfOk result (λ stand. Tells stand (TypesStand plan.now)) }
{
    let Some(types) = infer_types(alloc, plan)? else {
        return Ok(false);
    };
    if !phis_fit(plan, &types) {
        return Ok(false);
    }
    if !truths_given(plan, &types) {
        return Ok(false);
    }
    routes_fit(alloc, plan, &types)
}
