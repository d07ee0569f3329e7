//! The ranges of a plan's blocks, and the operators in them.
ghost use Rattle.std.specs.Prelude.{length};
ghost use Rattle.mit_plan.specs.Plans.{EachOp, op_at};
ghost use Rattle.mit_plan.specs.Valid.{Follow, RangesFollow, StandsAt};
ghost use Rattle.mit_valid.specs.Deciding.{Tells};

use mit_plan::{Plan, PlanBlock, PlanOp};

/// Whether the ranges follow each other from 0 to the last operator.
fn ranges_meet(plan: &Plan) -> bool
    ensures { Tells result (Follow 0 plan.now.blocks (length plan.now.ops)) }
{
    let mut end = 0;
    for block in plan.blocks() {
        if block.first as usize != end {
            return false;
        }
        end = block.first as usize + block.count as usize;
    }
    end == plan.ops().len()
}

/// Whether the operator of a number stands in the block that it names, at the index that it names.
fn stands_at(blocks: &[PlanBlock], operator: &PlanOp, op: usize) -> bool
    ensures { Tells result (StandsAt blocks.now operator.now op) }
{
    match blocks.get(operator.block as usize) {
        Some(block) => {
            operator.index < block.count && op == block.first as usize + operator.index as usize
        }
        None => false,
    }
}

/// Whether each operator stands where it names.
fn ops_stand(plan: &Plan) -> bool
    ensures { Tells result (EachOp plan.now (λ op. StandsAt plan.now.blocks (op_at plan.now op) op)) }
{
    for (op, operator) in plan.ops().iter().enumerate() {
        if !stands_at(plan.blocks(), operator, op) {
            return false;
        }
    }
    true
}

/// Whether the ranges follow each other, and each operator names its block and its index there.
pub(crate) fn ranges_follow(plan: &Plan) -> bool
    ensures { Tells result (RangesFollow plan.now) }
{
    ranges_meet(plan) && ops_stand(plan)
}
