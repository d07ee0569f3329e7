//! Where jumps lead from blocks without operators, so that a search goes on from the others alone.
ghost use Rattle.std.specs.Prelude.{◌≡◌, ◌<◌, ◌+◌, ◌^◌, length, IfOk};
ghost use Rattle.mit_plan.specs.Valid.{LeavesNameBlocks};
ghost use Rattle.mit_valid.specs.Deciding.{ListsStand};
ghost use Rattle.mit_valid.specs.Searched.{Skips, Stays, Walks, jump_step};

use mit_ops::Leave;
use mit_plan::Plan;
use std::alloc::{AllocError, Global};

/// Landings that are each block's own number.
pub(crate) fn own_landings(alloc: Global, plan: &Plan) -> Result<Vec<u32>, AllocError>
    ensures { IfOk result (λ landings. Stays plan.now landings.items) }
{
    let mut landings = Vec::new(alloc);
    for block in 0..plan.blocks().len() {
        landings.push(block as u32)?;
    }
    Ok(landings)
}

/// The block to which a block without operators jumps; otherwise the block itself.
fn step(plan: &Plan, block: u32) -> u32
    requires { block < length plan.now.blocks }
    ensures { result ≡ jump_step plan.now block }
{
    let own = plan.blocks()[block as usize];
    match own.leave {
        Leave::Jump(next) if own.count == 0 => next,
        _ => block,
    }
}

/// Lets each block land one step on.
fn step_each(plan: &Plan, landings: &mut [u32])
    requires { length landings.old ≡ length plan.now.blocks }
    ensures { Walks plan.now 1 landings.new }
{
    for block in 0..plan.blocks().len() {
        landings[block] = step(plan, block as u32);
    }
}

/// Lets each block land at the landing of its landing, and tells how many steps that is at least.
fn double(plan: &Plan, landings: &mut [u32], steps: usize) -> usize
    requires leaves { LeavesNameBlocks plan.now }
    requires walks { Walks plan.now steps landings.old }
    requires few { steps < 2 ^ 32 }
    ensures twice { result ≡ steps + steps }
    ensures walks { Walks plan.now result landings.new }
{
    for block in 0..plan.blocks().len() {
        landings[block] = landings[landings[block] as usize];
    }
    steps + steps
}

/// Lets each block land where jumps lead it.
pub(crate) fn skip_jumps(plan: &Plan, landings: &mut [u32])
    requires lists { ListsStand plan.now }
    requires many { length landings.old ≡ length plan.now.blocks }
    ensures { Skips plan.now landings.new }
{
    step_each(plan, landings);
    let mut steps = 1;
    while steps < plan.blocks().len() {
        steps = double(plan, landings, steps);
    }
}
