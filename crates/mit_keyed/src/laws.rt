//! Laws of rows by their keys. A call does nothing: its caller learns what it ensures.
ghost use Rattle.std.specs.Prelude.{◌≡◌, ◌≤◌, ℕ, List, [], ◌∷◌, ◌++◌, length, Ok};
ghost use Rattle.std.specs.List.{All, flat_map};
ghost use Rattle.mit_rows.specs.Bags.{RowOf, bag_of};
ghost use Rattle.mit_rows.specs.declared.row.TheConstants.{MAX_COLUMNS};
ghost use Rattle.mit_rows.specs.declared.value.Value.{Value};
ghost use Rattle.mit_files.specs.Files.{FileMap};
ghost use Rattle.mit_ops.specs.Answers.{over, settled};
ghost use Rattle.mit_ops.specs.Forms.{once_each, rows_at, whole_answer};
ghost use Rattle.mit_ops.specs.Keys.{key_hash, key_of};
ghost use Rattle.mit_ops.specs.Operators.{form_of};
ghost use Rattle.mit_ops.specs.Parts.{Fits};
ghost use Rattle.mit_ops.specs.declared.kinds.Agg.{Agg};
ghost use Rattle.mit_ops.specs.declared.kinds.Agg.TheVariants as agg;
ghost use Rattle.mit_ops.specs.declared.kinds.OpSpec.TheVariants as op;
ghost use Rattle.mit_apply.specs.TotalStored.{HasValue, total_of};
ghost use Rattle.mit_keyed.specs.Groups.{GivesRow, grouped, made_at};
ghost use Rattle.mit_keyed.specs.Indexes.{IsIndex, Notes, matches_of, places_of};
ghost use Rattle.mit_keyed.specs.declared.index.Index.{Index};

use mit_bags::laws::bags_are_sorted_lists;
use mit_op_laws::laws::fitting_groups_law;

/// The totals of the keys of rows that fit a reduction give rows or faults, which are what the reduction answers.
pub fn groups_law()
    ensures give { (keys : List ℕ) (agg : Agg) (inputs : List (List RowOf)) →
        Fits (op.Reduce keys agg) inputs → All GivesRow (grouped keys agg (rows_at inputs 0)) }
    ensures whole { (keys : List ℕ) (agg : Agg) (rows : List RowOf) (files : FileMap)
        (captures : List Value) → over made_at (grouped keys agg rows)
        ≡ whole_answer (form_of (op.Reduce keys agg) files captures) (rows ∷ []) }
{
    fitting_groups_law();
}

/// The total of all rows gives a row or a fault, which is what a count or a sum answers.
pub fn totals_law()
    ensures count { (rows : List RowOf) → HasValue (total_of agg.Count rows) }
    ensures sum { (column : ℕ) (rows : List RowOf) → HasValue (total_of (agg.Sum column) rows) }
    ensures count_whole { (rows : List RowOf) (files : FileMap) (captures : List Value) →
        settled (made_at ([], total_of agg.Count rows))
        ≡ whole_answer (form_of op.Count files captures) (rows ∷ []) }
    ensures sum_whole { (column : ℕ) (rows : List RowOf) (files : FileMap)
        (captures : List Value) → settled (made_at ([], total_of (agg.Sum column) rows))
        ≡ whole_answer (form_of (op.Sum column) files captures) (rows ∷ []) }
{}

/// Rows that fit have no more columns than a row may have, and each once they are what a distinct answers.
pub fn distinct_law()
    ensures narrow { (inputs : List (List RowOf)) → Fits op.Distinct inputs →
        All (λ row. length row ≤ MAX_COLUMNS) (once_each (rows_at inputs 0)) }
    ensures whole { (rows : List RowOf) (files : FileMap) (captures : List Value) →
        over (λ row. Ok (row ∷ [])) (once_each rows)
        ≡ whole_answer (form_of op.Distinct files captures) (rows ∷ []) }
{}

/// How an index comes about row by row, and that the matches of all right rows are what a join answers.
pub fn index_law()
    // an index without places is that of no rows
    ensures none { (columns : List ℕ) (index : Index) →
        ((hash : ℕ) → places_of index hash ≡ []) → IsIndex columns [] index }
    // with one row more, whose place is noted at the hash of its key
    ensures more { (columns : List ℕ) (rows : List RowOf) (row : RowOf) (before after : Index) →
        Notes before after (key_hash (key_of columns row)) (length rows) →
        IsIndex columns rows before → IsIndex columns (rows ++ row ∷ []) after }
    ensures whole { (left right : List ℕ) (lefts rights : List RowOf) (files : FileMap)
        (captures : List Value) → Ok (bag_of (flat_map (matches_of left right lefts) rights))
        ≡ whole_answer (form_of (op.Join left right) files captures) (lefts ∷ rights ∷ []) }
{
    bags_are_sorted_lists();
}
