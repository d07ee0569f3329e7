//! How the blocks of a plan are left.
ghost use Rattle.std.specs.Prelude.{◌≡◌, IsTrue, count_by};
ghost use Rattle.mit_plan.specs.Plans.{EachBlock, block_at};
ghost use Rattle.mit_plan.specs.Valid.{HasLast, LeavesNameBlocks, NamesBlocks, is_branch, is_end};
ghost use Rattle.mit_valid.specs.Deciding.{Tells};

use mit_ops::Leave;
use mit_plan::{Plan, PlanBlock, PlanOp};

/// Whether a jump or a branch names blocks, of which there are so many.
fn names_blocks(blocks: usize, leave: Leave) -> bool
    ensures { Tells result (NamesBlocks blocks leave) }
{
    match leave {
        Leave::Jump(next) => (next as usize) < blocks,
        Leave::Branch { on_true, on_false } => {
            (on_true as usize) < blocks && (on_false as usize) < blocks
        }
        Leave::End => true,
    }
}

/// Whether jumps and branches name blocks.
pub(crate) fn leaves_name_blocks(plan: &Plan) -> bool
    ensures { Tells result (LeavesNameBlocks plan.now) }
{
    for block in plan.blocks() {
        if !names_blocks(plan.blocks().len(), block.leave) {
            return false;
        }
    }
    true
}

/// Whether a block has a last operator that is no phi, where it is left by a branch.
fn has_last(ops: &[PlanOp], block: PlanBlock) -> bool
    ensures { Tells result (IsTrue (is_branch block.leave) → HasLast ops.now block) }
{
    let end = block.first as usize + block.count as usize;
    match block.leave {
        Leave::Branch { .. } => block.count > 0 && ops.get(end - 1).is_none_or(|op| op.phi == 0),
        Leave::Jump(_) | Leave::End => true,
    }
}

/// Whether the blocks that are left by branches have such operators.
pub(crate) fn branches_have_lasts(plan: &Plan) -> bool
    ensures { Tells result (EachBlock plan.now (λ block. IsTrue (is_branch (block_at plan.now block).leave)
        → HasLast plan.now.ops (block_at plan.now block))) }
{
    for block in plan.blocks() {
        if !has_last(plan.ops(), *block) {
            return false;
        }
    }
    true
}

/// Whether exactly one block is the end.
pub(crate) fn has_one_end(plan: &Plan) -> bool
    ensures { Tells result (count_by (λ block. is_end block.leave) plan.now.blocks ≡ 1) }
{
    let ends = plan
        .blocks()
        .iter()
        .filter(|block| matches!(block.leave, Leave::End));
    ends.count() == 1
}
