//! Which variables statements assign.
ghost use Rattle.std.specs.Prelude.{◌≡◌, ℕ, ◌||◌, List, map, IfOk};
ghost use Rattle.mit_ops.specs.declared.types.VarType.{VarType};
ghost use Rattle.mit_ssa.specs.Weaving.{Rise, has_mark};
ghost use Rattle.mit_ssa.specs.Woven.{assigned_in, weave_of};

use mit_script::Stmt;
use std::alloc::AllocError;

/// Marked variables in rising order, each once.
pub(crate) fn in_order(marks: Vec<u32>) -> Vec<u32>
    ensures rise { Rise 0 result.items }
    ensures same { (variable : ℕ) → has_mark result.items variable ≡ has_mark marks.items variable }
{
    let mut marks = marks;
    marks.sort_unstable();
    marks.dedup();
    marks
}

/// Marks what the statements of a block assign.
#[cycle(mark_all)]
pub(crate) fn mark_all(marks: Vec<u32>, block: &[Stmt]) -> Result<Vec<u32>, AllocError>
    ensures { IfOk result (λ after. (types : List VarType) (variable : ℕ) →
        has_mark after.items variable ≡ (has_mark marks.items variable || assigned_in (map (weave_of types) block.now) variable)) }
{
    let mut after = marks;
    for stmt in block {
        after = mark_one(after, stmt)?;
    }
    Ok(after)
}

/// Marks what a statement assigns.
#[cycle(mark_all)]
fn mark_one(marks: Vec<u32>, stmt: &Stmt) -> Result<Vec<u32>, AllocError>
    ensures { IfOk result (λ after. (types : List VarType) (variable : ℕ) →
        has_mark after.items variable ≡ (has_mark marks.items variable || (weave_of types stmt.now).assigns variable)) }
{
    match stmt {
        Stmt::Assign { target, .. } => {
            let mut after = marks;
            after.push(*target)?;
            Ok(after)
        }
        Stmt::Write { .. } => Ok(marks),
        Stmt::If { yes, no, .. } => mark_all(mark_all(marks, yes.as_slice())?, no.as_slice()),
        Stmt::While { body, .. } => mark_all(marks, body.as_slice()),
    }
}
