//! Totals of the rows of each key.
ghost use Rattle.std.specs.Prelude.{◌≡◌, ◌+◌, [], ◌∷◌, ◌++◌, List, IfOk, OnErr, OnOk};
ghost use Rattle.std.specs.List.{All};
ghost use Rattle.mit_rows.specs.Bags.{RowOf};
ghost use Rattle.mit_ops.specs.Answers.{over};
ghost use Rattle.mit_keyed.specs.Groups.{GivesRow, grouped, made_at};

use crate::made::add_made;
use indexmap::IndexMap;
use mit_apply::{Answer, Key, Total};
use mit_op_laws::laws::answers_add_up;
use mit_ops::Agg;
use mit_rows::Row;
use std::alloc::{AllocError, Global};

/// Adds a row to the total of its key.
pub fn add_to_group(
    totals: &mut IndexMap<Key, Total>,
    alloc: Global,
    keys: &[u8],
    agg: Agg,
    row: &Row,
) -> Result<(), AllocError>
    ensures ok { (rows : List RowOf) → totals.old.entries ≡ grouped keys.now agg rows →
        OnOk result (totals.new.entries ≡ grouped keys.now agg (rows ++ row.now ∷ [])) }
    ensures err { OnErr result (totals.new.entries ≡ totals.old.entries) }
{
    let key = Key::of(alloc, keys, row)?;
    match totals.get_mut(&key) {
        Some(total) => total.add(row),
        None => {
            let mut total = Total::new(agg);
            total.add(row)?;
            totals.insert(key, total)?;
            Ok(())
        }
    }
}

/// What is made of each key's total, after the key.
pub fn answer_groups(totals: &IndexMap<Key, Total>, alloc: Global) -> Result<Answer, AllocError>
    requires { All GivesRow totals.now.entries }
    ensures { IfOk result (λ answer. answer ≡ over made_at totals.now.entries) }
{
    answers_add_up::<(Key, Total)>();
    let mut answer = Answer::new(alloc);
    for (key, total) in totals {
        add_made(&mut answer, alloc, &key.to_row()?, total)?;
    }
    Ok(answer)
}
