//! The kinds that give something for each key.
ghost use Rattle.std.specs.Prelude.{◌≡◌, ◌≤◌, ◌++◌, [], ◌∷◌, IfOk, Ok, length, map};
ghost use Rattle.std.specs.List.{All};
ghost use Rattle.mit_rows.specs.declared.row.TheConstants.{MAX_COLUMNS};
ghost use Rattle.mit_ops.specs.Answers.{at_row, over};
ghost use Rattle.mit_ops.specs.EachRow.{given};
ghost use Rattle.mit_ops.specs.Forms.{once_each, with_key};
ghost use Rattle.mit_ops.specs.Keys.{key_of};
ghost use Rattle.mit_ops.specs.Totals.{aggregate};
ghost use Rattle.mit_keyed.specs.Groups.{GivesRow, grouped};

use indexmap::{IndexMap, IndexSet};
use mit_apply::Answer;
use mit_keyed::laws::{distinct_law, groups_law};
use mit_keyed::{add_to_group, answer_groups, answer_kept, keep_once};
use mit_ops::Agg;
use mit_rows::Row;
use std::alloc::{AllocError, Global};

/// The answer of a reduction over these rows.
pub fn reduced(alloc: Global, keys: &[u8], agg: Agg, rows: &[Row]) -> Result<Answer, AllocError>
    requires { All GivesRow (grouped keys.now agg rows.now) }
    ensures { IfOk result (λ answer. answer ≡ over (λ key. at_row key
        (given (aggregate agg (with_key (key_of keys.now) key rows.now))
        (λ value. Ok ((key ++ value ∷ []) ∷ []))))
        (once_each (map (key_of keys.now) rows.now))) }
{
    groups_law();
    let mut totals = IndexMap::new(alloc);
    for row in rows {
        add_to_group(&mut totals, alloc, keys, agg, row)?;
    }
    answer_groups(&totals, alloc)
}

/// The answer of a distinct over these rows.
pub fn distinct(alloc: Global, rows: &[Row]) -> Result<Answer, AllocError>
    requires { All (λ row. length row ≤ MAX_COLUMNS) (once_each rows.now) }
    ensures { IfOk result (λ answer.
        answer ≡ over (λ key. Ok (key ∷ [])) (once_each (map (λ row. row) rows.now))) }
{
    distinct_law();
    let mut kept = IndexSet::new(alloc);
    for row in rows {
        keep_once(&mut kept, row)?;
    }
    answer_kept(&kept, alloc)
}
