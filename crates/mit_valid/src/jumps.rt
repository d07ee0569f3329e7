//! Jumps of a plan: whether jumps alone go on for ever.
ghost use Rattle.std.specs.Prelude.{◌≡◌, ◌<◌, All, IfOk, IsTrue, length, map, slice_index};
ghost use Rattle.std.specs.List.{range_with_len};
ghost use Rattle.mit_plan.specs.Plans.{block_at};
ghost use Rattle.mit_plan.specs.Valid.{JumpsEnd, LeavesNameBlocks};
ghost use Rattle.mit_valid.specs.Deciding.{Tells};
ghost use Rattle.mit_valid.specs.Jumping.{AreLed, is_no_jump, next_after};

use mit_ops::Leave;
use mit_plan::Plan;
use std::alloc::{AllocError, Global};

/// Each block itself, of which there are so many.
fn each_itself(alloc: Global, blocks: u32) -> Result<Vec<u32>, AllocError>
    ensures { IfOk result (λ table. table.items ≡ range_with_len 0 blocks) }
{
    (0..blocks).collect(alloc)
}

/// Where the second table leads from where the first one does.
fn composed(alloc: Global, first: &[u32], second: &[u32]) -> Result<Vec<u32>, AllocError>
    requires { All (λ block. block < length second.now) first.now }
    ensures { IfOk result (λ table. table.items ≡ map (λ block. slice_index second.now block) first.now) }
{
    let mut table = Vec::with_capacity(alloc, first.len())?;
    for block in first {
        table.push(second[*block as usize])?;
    }
    Ok(table)
}

/// Where one jump more leads than a table does.
fn stepped(alloc: Global, plan: &Plan, table: &[u32]) -> Result<Vec<u32>, AllocError>
    requires { All (λ block. block < length plan.now.blocks) table.now }
    ensures { IfOk result (λ longer. longer.items ≡ map (next_after plan.now) table.now) }
{
    let mut longer = Vec::with_capacity(alloc, table.len())?;
    for block in table {
        match plan.blocks()[*block as usize].leave {
            Leave::Jump(next) => longer.push(next)?,
            Leave::Branch { .. } | Leave::End => longer.push(*block)?,
        }
    }
    Ok(longer)
}

/// Where so many jumps lead from each block, or fewer where a block on the way is not left by a jump. The time grows
/// with the number of blocks times the number of digits of the number of jumps.
fn led(alloc: Global, plan: &Plan, steps: u32) -> Result<Vec<u32>, AllocError>
    requires { LeavesNameBlocks plan.now }
    ensures { IfOk result (λ table. AreLed plan.now steps table.items) }
{
    if steps == 0 {
        return each_itself(alloc, plan.blocks().len() as u32);
    }
    let half = led(alloc, plan, steps / 2)?;
    let even = composed(alloc, &half, &half)?;
    if steps % 2 == 0 {
        Ok(even)
    } else {
        stepped(alloc, plan, &even)
    }
}

/// Whether no block of a table is left by a jump.
fn all_settled(plan: &Plan, table: &[u32]) -> bool
    requires { All (λ block. block < length plan.now.blocks) table.now }
    ensures { Tells result (All (λ block. IsTrue (is_no_jump (block_at plan.now block).leave)) table.now) }
{
    for block in table {
        if let Leave::Jump(_) = plan.blocks()[*block as usize].leave {
            return false;
        }
    }
    true
}

/// Whether jumps alone come to an end from each block.
pub(crate) fn jumps_end(alloc: Global, plan: &Plan) -> Result<bool, AllocError>
    requires { LeavesNameBlocks plan.now }
    ensures { IfOk result (λ end. Tells end (JumpsEnd plan.now)) }
{
    let most = plan.blocks().len().saturating_sub(1);
    let last = led(alloc, plan, most as u32)?;
    Ok(all_settled(plan, &last))
}
