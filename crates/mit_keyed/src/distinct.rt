//! Rows, each kept once.
ghost use Rattle.std.specs.Prelude.{◌≡◌, ◌≤◌, [], ◌∷◌, ◌++◌, List, IfOk, OnErr, OnOk, length, Ok};
ghost use Rattle.std.specs.List.{All};
ghost use Rattle.mit_rows.specs.Bags.{RowOf};
ghost use Rattle.mit_rows.specs.declared.row.TheConstants.{MAX_COLUMNS};
ghost use Rattle.mit_ops.specs.Answers.{over};
ghost use Rattle.mit_ops.specs.Forms.{once_each};

use indexmap::IndexSet;
use mit_apply::{Answer, Key};
use mit_op_laws::laws::answers_add_up;
use mit_rows::Row;
use std::alloc::{AllocError, Global};

/// Keeps a row, unless it is kept already.
pub fn keep_once(kept: &mut IndexSet<Key>, row: &Row) -> Result<(), AllocError>
    ensures ok { (rows : List RowOf) → kept.old.keys ≡ once_each rows →
        OnOk result (kept.new.keys ≡ once_each (rows ++ row.now ∷ [])) }
    ensures err { OnErr result (kept.new.keys ≡ kept.old.keys) }
{
    kept.insert(Key::of_row(row)?)?;
    Ok(())
}

/// The rows that are kept.
pub fn answer_kept(kept: &IndexSet<Key>, alloc: Global) -> Result<Answer, AllocError>
    requires { All (λ row. length row ≤ MAX_COLUMNS) kept.now.keys }
    ensures { IfOk result (λ answer. answer ≡ over (λ row. Ok (row ∷ [])) kept.now.keys) }
{
    answers_add_up::<Key>();
    let mut answer = Answer::new(alloc);
    for key in kept {
        answer.add_row(key.to_row()?)?;
    }
    Ok(answer)
}
