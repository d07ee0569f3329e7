//! What is seen in the lists of a plan: the conditions of a valid plan that speak of neither paths nor types.
ghost use Rattle.std.specs.Prelude.{IfOk};
ghost use Rattle.mit_plan.specs.Valid.{IsWithinLimits};
ghost use Rattle.mit_valid.specs.Deciding.{ListsStand, Tells};

use crate::inputs::{inputs_have_edges, operands_apart};
use crate::jumps::jumps_end;
use crate::leaves::{branches_have_lasts, has_one_end, leaves_name_blocks};
use crate::links::{edges_go_up, edges_in_order, phis_copy, writes_give_nothing};
use crate::ranges::ranges_follow;
use mit_plan::{MAX_EDGES, MAX_OPS, MAX_PLAN_BLOCKS, Plan};
use std::alloc::{AllocError, Global};

/// Whether the lists are within the limits.
fn within_limits(plan: &Plan) -> bool
    ensures { Tells result (IsWithinLimits plan.now) }
{
    plan.ops().len() <= MAX_OPS
        && plan.edges().len() <= MAX_EDGES
        && plan.blocks().len() <= MAX_PLAN_BLOCKS
}

/// Whether they hold.
pub(crate) fn lists_stand(alloc: Global, plan: &Plan) -> Result<bool, AllocError>
    ensures { IfOk result (λ stand. Tells stand (ListsStand plan.now)) }
{
    Ok(
        within_limits(plan)
            && ranges_follow(plan)
            && leaves_name_blocks(plan)
            && branches_have_lasts(plan)
            && has_one_end(plan)
            && phis_copy(plan)
            && edges_in_order(plan)
            && inputs_have_edges(plan)
            && edges_go_up(plan)
            && writes_give_nothing(plan)
            && operands_apart(alloc, plan)?
            && jumps_end(alloc, plan)?,
    )
}
