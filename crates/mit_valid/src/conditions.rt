//! The fifteen conditions, one after another.
ghost use Rattle.std.specs.Prelude.{IfOk};
ghost use Rattle.mit_plan.specs.Valid.{IsValid};
ghost use Rattle.mit_valid.specs.Deciding.{Tells};

use crate::passing::paths_stand;
use crate::structure::lists_stand;
use crate::typing::types_stand;
use mit_plan::Plan;
use std::alloc::{AllocError, Global};

/// Whether a plan is valid: the fifteen conditions hold.
pub fn validate(alloc: Global, plan: &Plan) -> Result<bool, AllocError>
    ensures { IfOk result (λ valid. Tells valid (IsValid plan.now)) }
{
    Ok(lists_stand(alloc, plan)? && paths_stand(alloc, plan)? && types_stand(alloc, plan)?)
}
