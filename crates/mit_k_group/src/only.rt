//! The first row of those that were fed, and how many there were.
ghost use Rattle.std.specs.Prelude.{◌≡◌, [], ◌∷◌, ◌++◌, List, IfOk, OnErr, OnOk};
ghost use Rattle.mit_rows.specs.Bags.{RowOf};
ghost use Rattle.mit_ops.specs.Answers.{at_row, settled};
ghost use Rattle.mit_ops.specs.Operators.{single};
ghost use Rattle.mit_k_group.specs.OnlyRow.{IsFirst};

use mit_apply::Answer;
use mit_ops::FaultKind;
use mit_rows::Row;
use std::alloc::{AllocError, Global};

/// The first row, and how many rows there are.
#[derive(Drop)]
pub(crate) struct Only {
    pub count: u64,
    pub first: Option<Row>,
}

/// Counts a row, and keeps it where it is the first.
pub(crate) fn count_row(only: &mut Only, row: &Row) -> Result<(), AllocError>
    ensures ok { (rows : List RowOf) → IsFirst only.old rows →
        OnOk result (IsFirst only.new (rows ++ row.now ∷ [])) }
    ensures err { OnErr result (only.new ≡ only.old) }
{
    let count = only.count.checked_add(1).ok_or(AllocError)?;
    if only.first.is_none() {
        only.first = Some(row.copy()?);
    }
    only.count = count;
    Ok(())
}

/// The row, where there is exactly one.
pub(crate) fn answer_only(only: &Only, alloc: Global) -> Result<Answer, AllocError>
    ensures { (rows : List RowOf) → IsFirst only.now rows →
        IfOk result (λ answer. answer ≡ settled (at_row [] (single rows))) }
{
    let mut answer = Answer::new(alloc);
    match &only.first {
        Some(row) if only.count == 1 => answer.add_row(row.copy()?)?,
        _ => answer.add_fault(Row::empty(), FaultKind::NotOne(only.count)),
    }
    Ok(answer)
}
