//! What is inferred of an operator's type from the types of what it takes.
ghost use Rattle.std.specs.Prelude.{◌≡◌, ◌≢◌, ◌<◌, ◌≤◌, IfOk, IfSome, List, MatchOption, Contains, Some, None, true, false, length, map};
ghost use Rattle.mit_rows.specs.declared.value.ColType.{ColType};
ghost use Rattle.mit_ops.specs.Kinds.{bag_inputs_of};
ghost use Rattle.mit_ops.specs.Results.{AreBags, IsBagType, scalar};
ghost use Rattle.mit_ops.specs.declared.types.VarType.{VarType};
ghost use Rattle.mit_plan.specs.Plans.{edge_at, is_phi, op_at};
ghost use Rattle.mit_valid.specs.Deciding.{ListsStand};
ghost use Rattle.mit_valid.specs.Inferred.{AreInferred, GivesType, IsInference, inferred_at, inferred_inputs};

use mit_ops::{OpRefused, OpSpec, VarType};
use mit_plan::Plan;
use mit_rows::ColType;
use mit_types::result_type;
use std::alloc::{AllocError, Global};

/// What is inferred of an operator's type.
#[derive(Drop)]
pub(crate) enum Inference {
    /// Nothing yet: too little is inferred of what it takes.
    Waits,
    /// It has none, so no types fit.
    Refused,
    /// This is the only one that may fit.
    Is(VarType),
}

/// The type of what an edge brings, where it is inferred.
fn input_type<'a>(plan: &Plan, inferred: &'a [Option<VarType>], edge: u32) -> Option<&'a VarType>
    requires { edge < length plan.now.edges }
    ensures { MatchOption result (inferred_at inferred.now (edge_at plan.now edge).from ≡ None)
        (λ found. inferred_at inferred.now (edge_at plan.now edge).from ≡ Some found.now) }
{
    let from = plan.edges()[edge as usize].from;
    match inferred.get(from as usize) {
        Some(Some(found)) => Some(found),
        _ => None,
    }
}

/// The types of what an operator takes, where all are inferred.
fn input_types(
    alloc: Global,
    plan: &Plan,
    inferred: &[Option<VarType>],
    op: u32,
) -> Result<Option<Vec<VarType>>, AllocError>
    requires { op < length plan.now.ops }
    ensures { IfOk result (λ found. MatchOption found
        (Contains (inferred_inputs plan.now inferred.now op) None)
        (λ types. inferred_inputs plan.now inferred.now op ≡ map Some types.items)) }
{
    let edges = plan.edges_to(op);
    let mut types = Vec::with_capacity(alloc, edges.len())?;
    for edge in edges {
        let Some(found) = input_type(plan, inferred, *edge) else {
            return Ok(None);
        };
        types.push(found.copy(alloc)?)?;
    }
    Ok(Some(types))
}

/// The type of a scalar's column, where this is the type of a scalar.
fn column_of(is: &VarType) -> Option<ColType>
    ensures { MatchOption result ((column : ColType) → is.now ≢ scalar column)
        (λ column. is.now ≡ scalar column) }
{
    if !is.scalar {
        return None;
    }
    match is.cols.as_slice() {
        [column] => Some(*column),
        _ => None,
    }
}

/// The types of the scalars' columns, where these are types of scalars.
fn columns_of(alloc: Global, types: &[VarType]) -> Result<Option<Vec<ColType>>, AllocError>
    ensures { IfOk result (λ found. MatchOption found
        ((columns : List ColType) → types.now ≢ map scalar columns)
        (λ columns. types.now ≡ map scalar columns.items)) }
{
    let mut columns = Vec::with_capacity(alloc, types.len())?;
    for is in types {
        let Some(column) = column_of(is) else {
            return Ok(None);
        };
        columns.push(column)?;
    }
    Ok(Some(columns))
}

/// The type of what an operator gives for the types of its inputs, or none.
fn type_given(
    alloc: Global,
    spec: &OpSpec,
    inputs: &[VarType],
) -> Result<Option<VarType>, AllocError>
    requires enough { bag_inputs_of spec.now ≤ length inputs.now }
    requires wide { AreBags inputs.now }
    ensures given { IfOk result (λ found. MatchOption found
        ((is : VarType) → ¬ GivesType spec.now inputs.now is) (GivesType spec.now inputs.now)) }
    ensures kept { IfOk result (λ found. IfSome found IsBagType) }
{
    let (bags, captures) = inputs.split_at(usize::from(spec.bag_inputs()));
    let Some(captures) = columns_of(alloc, captures)? else {
        return Ok(None);
    };
    match result_type(alloc, spec, bags, &captures) {
        Ok(found) => Ok(Some(found)),
        Err(OpRefused::NoMemory) => Err(AllocError),
        Err(_) => Ok(None),
    }
}

/// The type of a phi: that of the first operand whose type is inferred.
fn infer_phi(
    alloc: Global,
    plan: &Plan,
    inferred: &[Option<VarType>],
    op: u32,
) -> Result<Inference, AllocError>
    requires op { op < length plan.now.ops }
    requires phi { is_phi (op_at plan.now op) ≡ true }
    requires inferred { AreInferred plan.now inferred.now }
    ensures { IfOk result (IsInference plan.now inferred.now op) }
{
    for edge in plan.edges_to(op) {
        if let Some(found) = input_type(plan, inferred, *edge) {
            return Ok(Inference::Is(found.copy(alloc)?));
        }
    }
    Ok(Inference::Waits)
}

/// The type of an operator that is no phi: what it gives for the types of its inputs.
fn infer_plain(
    alloc: Global,
    plan: &Plan,
    inferred: &[Option<VarType>],
    op: u32,
) -> Result<Inference, AllocError>
    requires lists { ListsStand plan.now }
    requires op { op < length plan.now.ops }
    requires plain { is_phi (op_at plan.now op) ≡ false }
    requires inferred { AreInferred plan.now inferred.now }
    ensures { IfOk result (IsInference plan.now inferred.now op) }
{
    let Some(types) = input_types(alloc, plan, inferred, op)? else {
        return Ok(Inference::Waits);
    };
    match type_given(alloc, &plan.ops()[op as usize].spec, &types)? {
        Some(found) => Ok(Inference::Is(found)),
        None => Ok(Inference::Refused),
    }
}

/// What is inferred of an operator's type.
pub(crate) fn infer_one(
    alloc: Global,
    plan: &Plan,
    inferred: &[Option<VarType>],
    op: u32,
) -> Result<Inference, AllocError>
    requires lists { ListsStand plan.now }
    requires op { op < length plan.now.ops }
    requires inferred { AreInferred plan.now inferred.now }
    ensures { IfOk result (IsInference plan.now inferred.now op) }
{
    if plan.ops()[op as usize].phi > 0 {
        infer_phi(alloc, plan, inferred, op)
    } else {
        infer_plain(alloc, plan, inferred, op)
    }
}
