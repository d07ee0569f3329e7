//! What holds of all paths through a plan: each block is reached, and each operator has a place to choose.
ghost use Rattle.std.specs.Prelude.{◌≡◌, ◌<◌, ℕ, [], IfOk, OnOk, false, length, true};
ghost use Rattle.std.specs.List.{list_any};
ghost use Rattle.mit_plan.specs.Plans.{EachBlock, EachOp, edges_from, edges_to};
ghost use Rattle.mit_plan.specs.Valid.{IsReached, PlacesToChoose};
ghost use Rattle.mit_valid.specs.Deciding.{ListsStand, PathsStand, Tells};
ghost use Rattle.mit_valid.specs.Passed.{BlockFeeds, BlockPasses, PhiPasses, feeds, sources_marked};
ghost use Rattle.mit_valid.specs.Searched.{Skips, Stays, is_marked};

use crate::landing::{own_landings, skip_jumps};
use crate::reaching::mark_reached;
use mit_path::laws::last_place_law;
use mit_plan::Plan;
use std::alloc::{AllocError, Global};

/// Whether an edge leads to an operator, no phi, of a marked block other than this one.
fn edge_feeds(plan: &Plan, marks: &[bool], block: u32, edge: u32) -> bool
    requires lists { ListsStand plan.now }
    requires many { length marks.now ≡ length plan.now.blocks }
    requires edge { edge < length plan.now.edges }
    ensures { result ≡ feeds plan.now marks.now block edge }
{
    let to = &plan.ops()[plan.edges()[edge as usize].to as usize];
    to.phi == 0 && to.block != block && marks[to.block as usize]
}

/// Whether such an edge leaves an operator.
fn op_feeds(plan: &Plan, marks: &[bool], block: u32, op: u32) -> bool
    requires lists { ListsStand plan.now }
    requires many { length marks.now ≡ length plan.now.blocks }
    requires op { op < length plan.now.ops }
    ensures { result ≡ list_any (feeds plan.now marks.now block) (edges_from plan.now op) }
{
    for edge in plan.edges_from(op) {
        if edge_feeds(plan, marks, block, *edge) {
            return true;
        }
    }
    false
}

/// Whether such an edge leaves an operator of the block.
fn block_feeds(plan: &Plan, marks: &[bool], block: u32) -> bool
    requires lists { ListsStand plan.now }
    requires many { length marks.now ≡ length plan.now.blocks }
    requires block { block < length plan.now.blocks }
    ensures { Tells result (BlockFeeds plan.now marks.now block) }
{
    let own = plan.blocks()[block as usize];
    for index in 0..own.count {
        if op_feeds(plan, marks, block, own.first + index) {
            return true;
        }
    }
    false
}

/// Marks no block.
fn clear(marks: &mut [bool])
    ensures { (block : ℕ) → is_marked marks.new block ≡ false }
{
    for mark in marks.iter_mut() {
        *mark = false;
    }
}

/// Marks the blocks from which an operator's inputs come.
fn mark_sources(plan: &Plan, marks: &mut [bool], op: u32)
    requires lists { ListsStand plan.now }
    requires many { length marks.old ≡ length plan.now.blocks }
    requires op { op < length plan.now.ops }
    ensures { marks.new ≡ sources_marked plan.now marks.old (edges_to plan.now op) }
{
    for edge in plan.edges_to(op) {
        let from = plan.edges()[*edge as usize].from;
        marks[plan.ops()[from as usize].block as usize] = true;
    }
}

/// Whether the edges that leave a block pass. Each block is marked in `all`; `marks` is changed.
fn block_passes(
    plan: &Plan,
    landings: &[u32],
    all: &[bool],
    waiting: &mut Vec<u32>,
    marks: &mut [bool],
    block: u32,
) -> Result<bool, AllocError>
    requires lists { ListsStand plan.now }
    requires skips { Skips plan.now landings.now }
    requires all_many { length all.now ≡ length plan.now.blocks }
    requires all { EachBlock plan.now (λ one. is_marked all.now one ≡ true) }
    requires none { waiting.old.items ≡ [] }
    requires many { length marks.old ≡ length plan.now.blocks }
    requires block { block < length plan.now.blocks }
    ensures pass { IfOk result (λ pass. Tells pass (BlockPasses plan.now block)) }
    ensures none { OnOk result (waiting.new.items ≡ []) }
{
    last_place_law();
    if !block_feeds(plan, all, block) {
        return Ok(true);
    }
    clear(marks);
    marks[block as usize] = true;
    mark_reached(plan, landings, waiting, marks)?;
    Ok(!block_feeds(plan, marks, block))
}

/// Whether an operator passes, if it is a phi. `marks` is changed.
fn phi_passes(
    plan: &Plan,
    landings: &[u32],
    waiting: &mut Vec<u32>,
    marks: &mut [bool],
    op: u32,
) -> Result<bool, AllocError>
    requires lists { ListsStand plan.now }
    requires skips { Skips plan.now landings.now }
    requires none { waiting.old.items ≡ [] }
    requires many { length marks.old ≡ length plan.now.blocks }
    requires op { op < length plan.now.ops }
    ensures pass { IfOk result (λ pass. Tells pass (PhiPasses plan.now op)) }
    ensures none { OnOk result (waiting.new.items ≡ []) }
{
    last_place_law();
    if plan.ops()[op as usize].phi == 0 {
        return Ok(true);
    }
    clear(marks);
    mark_sources(plan, marks, op);
    mark_reached(plan, landings, waiting, marks)?;
    Ok(!marks[plan.ops()[op as usize].block as usize])
}

/// Whether the edges that leave each block pass.
fn blocks_pass(
    plan: &Plan,
    landings: &[u32],
    all: &[bool],
    waiting: &mut Vec<u32>,
    marks: &mut [bool],
) -> Result<bool, AllocError>
    requires lists { ListsStand plan.now }
    requires skips { Skips plan.now landings.now }
    requires all_many { length all.now ≡ length plan.now.blocks }
    requires all { EachBlock plan.now (λ one. is_marked all.now one ≡ true) }
    requires none { waiting.old.items ≡ [] }
    requires many { length marks.old ≡ length plan.now.blocks }
    ensures pass { IfOk result (λ pass. Tells pass (EachBlock plan.now (BlockPasses plan.now))) }
    ensures none { OnOk result (waiting.new.items ≡ []) }
{
    for block in 0..plan.blocks().len() {
        if !block_passes(plan, landings, all, waiting, marks, block as u32)? {
            return Ok(false);
        }
    }
    Ok(true)
}

/// Whether each phi passes.
fn phis_pass(
    plan: &Plan,
    landings: &[u32],
    waiting: &mut Vec<u32>,
    marks: &mut [bool],
) -> Result<bool, AllocError>
    requires lists { ListsStand plan.now }
    requires skips { Skips plan.now landings.now }
    requires none { waiting.old.items ≡ [] }
    requires many { length marks.old ≡ length plan.now.blocks }
    ensures { IfOk result (λ pass. Tells pass (EachOp plan.now (PhiPasses plan.now))) }
{
    for op in 0..plan.ops().len() {
        if !phi_passes(plan, landings, waiting, marks, op as u32)? {
            return Ok(false);
        }
    }
    Ok(true)
}

/// Whether each operator has a place to choose, where each block is reached.
fn places_stand(
    alloc: Global,
    plan: &Plan,
    landings: &[u32],
    all: &[bool],
) -> Result<bool, AllocError>
    requires lists { ListsStand plan.now }
    requires skips { Skips plan.now landings.now }
    requires all_many { length all.now ≡ length plan.now.blocks }
    requires all { EachBlock plan.now (λ one. is_marked all.now one ≡ true) }
    ensures { IfOk result (λ stand. Tells stand (PlacesToChoose plan.now)) }
{
    let mut marks = vec![in alloc; false; plan.blocks().len()]?;
    let mut waiting = Vec::new(alloc);
    Ok(
        blocks_pass(plan, landings, all, &mut waiting, &mut marks)?
            && phis_pass(plan, landings, &mut waiting, &mut marks)?,
    )
}

/// Marks the blocks that are reached. Each block lands at itself.
fn reached(alloc: Global, plan: &Plan, landings: &[u32]) -> Result<Vec<bool>, AllocError>
    requires lists { ListsStand plan.now }
    requires stays { Stays plan.now landings.now }
    ensures many { IfOk result (λ marks. length marks.items ≡ length plan.now.blocks) }
    ensures marks { IfOk result (λ marks.
        EachBlock plan.now (λ block. Tells (is_marked marks.items block) (IsReached plan.now block))) }
{
    let mut marks = vec![in alloc; false; plan.blocks().len()]?;
    let mut waiting = Vec::new(alloc);
    mark_reached(plan, landings, &mut waiting, &mut marks)?;
    Ok(marks)
}

/// Whether they hold.
pub(crate) fn paths_stand(alloc: Global, plan: &Plan) -> Result<bool, AllocError>
    requires { ListsStand plan.now }
    ensures { IfOk result (λ stand. Tells stand (PathsStand plan.now)) }
{
    let mut landings = own_landings(alloc, plan)?;
    let all = reached(alloc, plan, &landings)?;
    if all.contains(&false) {
        return Ok(false);
    }
    skip_jumps(plan, &mut landings);
    places_stand(alloc, plan, &landings, &all)
}
