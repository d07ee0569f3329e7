//! A search of a plan's blocks from block 0.
ghost use Rattle.std.specs.Prelude.{◌≡◌, ◌<◌, ℕ, [], length, true, OnOk};
ghost use Rattle.mit_plan.specs.Valid.{JumpsEnd, LeavesNameBlocks, NamesBlocks};
ghost use Rattle.mit_valid.specs.Searched.{IsSearched, Skips, is_marked, landing_of};
ghost use Rattle.mit_valid.specs.Searched.{visits, visits_next};

use mit_ops::Leave;
use mit_plan::Plan;
use std::alloc::AllocError;

/// Marks a block, which waits then, if it was not marked.
fn visit(marks: &mut [bool], waiting: &mut Vec<u32>, block: u32) -> Result<(), AllocError>
    requires { block < length marks.old }
    ensures marks { OnOk result (marks.new
        ≡ (visits (record { marks = marks.old; waiting = waiting.old.items }) block).marks) }
    ensures waiting { OnOk result (waiting.new.items
        ≡ (visits (record { marks = marks.old; waiting = waiting.old.items }) block).waiting) }
{
    if !marks[block as usize] {
        marks[block as usize] = true;
        waiting.push(block)?;
    }
    Ok(())
}

/// Visits the landings of the blocks that may come next.
fn visit_next(
    landings: &[u32],
    marks: &mut [bool],
    waiting: &mut Vec<u32>,
    leave: Leave,
) -> Result<(), AllocError>
    requires many { length marks.old ≡ length landings.now }
    requires within { (block : ℕ) → block < length landings.now → landing_of landings.now block < length landings.now }
    requires names { NamesBlocks (length landings.now) leave }
    ensures marks { OnOk result (marks.new ≡ (visits_next landings.now
        (record { marks = marks.old; waiting = waiting.old.items }) leave).marks) }
    ensures waiting { OnOk result (waiting.new.items ≡ (visits_next landings.now
        (record { marks = marks.old; waiting = waiting.old.items }) leave).waiting) }
{
    match leave {
        Leave::Jump(next) => visit(marks, waiting, landings[next as usize]),
        Leave::Branch { on_true, on_false } => {
            visit(marks, waiting, landings[on_true as usize])?;
            visit(marks, waiting, landings[on_false as usize])
        }
        Leave::End => Ok(()),
    }
}

/// Marks blocks to which a path from block 0 leads that meets none of those marked before: the landings of all of them.
///
/// No block waits before it or after it.
pub(crate) fn mark_reached(
    plan: &Plan,
    landings: &[u32],
    waiting: &mut Vec<u32>,
    marks: &mut [bool],
) -> Result<(), AllocError>
    requires many { length marks.old ≡ length plan.now.blocks }
    requires some { 0 < length plan.now.blocks }
    requires leaves { LeavesNameBlocks plan.now }
    requires jumps { JumpsEnd plan.now }
    requires skips { Skips plan.now landings.now }
    requires avoided { (block : ℕ) → is_marked marks.old block ≡ true → landing_of landings.now block ≡ block }
    requires none { waiting.old.items ≡ [] }
    ensures searched { OnOk result (IsSearched plan.now landings.now marks.old marks.new) }
    ensures none { OnOk result (waiting.new.items ≡ []) }
{
    let blocks = plan.blocks();
    visit(marks, waiting, landings[0])?;
    while let Some(block) = waiting.pop() {
        visit_next(landings, marks, waiting, blocks[block as usize].leave)?;
    }
    Ok(())
}
