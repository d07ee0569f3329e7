//! The types of a plan's operators, inferred one after another: each is the only one that may fit.
ghost use Rattle.std.specs.Prelude.{◌≡◌, ◌<◌, IfOk, MatchOption, None, filter_map, length, replicate};
ghost use Rattle.mit_plan.specs.Plans.{EachOp};
ghost use Rattle.mit_plan.specs.Valid.{HasTypes};
ghost use Rattle.mit_valid.specs.Deciding.{ListsStand, PathsStand};
ghost use Rattle.mit_valid.specs.Inferred.{AreForced, AreInferred, IsHeadway, IsTried};

use crate::inference::{Inference, infer_one};
use mit_ops::VarType;
use mit_path::laws::last_place_law;
use mit_plan::Plan;
use std::alloc::{AllocError, Global};

/// What a step comes to.
#[derive(Drop)]
pub(crate) enum Headway {
    /// No types fit.
    Refused,
    /// Nothing more is inferred.
    Ended,
    /// More is inferred.
    Goes,
}

/// Infers the type of an operator, where it isn't inferred yet.
fn infer(
    alloc: Global,
    plan: &Plan,
    inferred: &mut Vec<Option<VarType>>,
    op: u32,
) -> Result<Headway, AllocError>
    requires lists { ListsStand plan.now }
    requires op { op < length plan.now.ops }
    requires inferred { AreInferred plan.now inferred.old.items }
    ensures { IfOk result (IsHeadway plan.now inferred.old.items inferred.new.items
        (IsTried plan.now inferred.new.items op)) }
{
    if inferred[op as usize].is_some() {
        return Ok(Headway::Ended);
    }
    match infer_one(alloc, plan, inferred, op)? {
        Inference::Waits => Ok(Headway::Ended),
        Inference::Refused => Ok(Headway::Refused),
        Inference::Is(found) => {
            inferred[op as usize] = Some(found);
            Ok(Headway::Goes)
        }
    }
}

/// Infers the type of each operator once.
fn infer_each(
    alloc: Global,
    plan: &Plan,
    inferred: &mut Vec<Option<VarType>>,
) -> Result<Headway, AllocError>
    requires lists { ListsStand plan.now }
    requires inferred { AreInferred plan.now inferred.old.items }
    ensures { IfOk result (IsHeadway plan.now inferred.old.items inferred.new.items
        (EachOp plan.now (IsTried plan.now inferred.new.items))) }
{
    let mut goes = false;
    for op in 0..plan.ops().len() {
        match infer(alloc, plan, inferred, op as u32)? {
            Headway::Refused => return Ok(Headway::Refused),
            Headway::Ended => {}
            Headway::Goes => goes = true,
        }
    }
    Ok(if goes { Headway::Goes } else { Headway::Ended })
}

/// Those types that are inferred.
fn those_inferred(alloc: Global, inferred: Vec<Option<VarType>>) -> Result<Vec<VarType>, AllocError>
    ensures { IfOk result (λ types. types.items ≡ filter_map (λ is. is) inferred.items) }
{
    inferred.into_iter().filter_map(|is| is).collect(alloc)
}

/// No type for each of so many operators.
fn nothing(alloc: Global, count: usize) -> Result<Vec<Option<VarType>>, AllocError>
    ensures { IfOk result (λ inferred. inferred.items ≡ replicate count None) }
{
    let mut inferred = Vec::with_capacity(alloc, count)?;
    for _op in 0..count {
        inferred.push(None)?;
    }
    Ok(inferred)
}

/// The only types that may fit, and that do fit at each operator that is no phi; or none, where no types fit.
pub(crate) fn infer_types(alloc: Global, plan: &Plan) -> Result<Option<Vec<VarType>>, AllocError>
    requires lists { ListsStand plan.now }
    requires paths { PathsStand plan.now }
    ensures { IfOk result (λ found. MatchOption found (¬ HasTypes plan.now)
        (λ types. AreForced plan.now types.items)) }
{
    last_place_law();
    let mut inferred = nothing(alloc, plan.ops().len())?;
    loop {
        match infer_each(alloc, plan, &mut inferred)? {
            Headway::Refused => return Ok(None),
            Headway::Ended => return Ok(Some(those_inferred(alloc, inferred)?)),
            Headway::Goes => {}
        }
    }
}
