//! Laws of what operators compute. A call does nothing: its caller learns what it ensures.
ghost use Rattle.std.specs.Prelude.{◌≡◌, ◌≢◌, ◌<◌, ◌≤◌, ◌+◌, ◌⊎◌, ◌==◌, ℕ, Bool, IsSome, IsTrue, if◌then◌else◌, List, [], ◌∷◌, ◌++◌, length, drop, map, take, Ok, Some, replicate, slice_get};
ghost use Rattle.std.specs.List.{All, AllZip, Contains};
ghost use Rattle.mit_rows.specs.Bags.{RowOf, all_rows, bag_of};
ghost use Rattle.mit_rows.specs.declared.row.TheConstants.{MAX_COLUMNS};
ghost use Rattle.mit_rows.specs.declared.value.ColType.{ColType};
ghost use Rattle.mit_rows.specs.declared.value.ColType.TheVariants as is;
ghost use Rattle.mit_rows.specs.declared.value.Value.{Value};
ghost use Rattle.mit_rows.specs.declared.value.Value.TheVariants as value;
ghost use Rattle.mit_files.specs.Files.{FileMap};
ghost use Rattle.mit_expr.specs.Values.{untyped};
ghost use Rattle.mit_expr.specs.declared.expr.Expr.{Expr};
ghost use Rattle.mit_expr.specs.Types.{type_in, type_of_value};
ghost use Rattle.mit_ops.specs.Answers.{BagOrFault, both, over};
ghost use Rattle.mit_ops.specs.Forms.{rows_at};
ghost use Rattle.mit_ops.specs.Keys.{key_of};
ghost use Rattle.mit_ops.specs.Kinds.{bag_inputs_of, kind_of};
ghost use Rattle.mit_ops.specs.Operators.{bags_in, captures_among, name_written, part_apply, whole};
ghost use Rattle.mit_ops.specs.Parts.{CutInto, Fits, FitsAs, HaveColumns, SameBags, StandsIn, routed_lists, sum_of_parts};
ghost use Rattle.mit_ops.specs.Results.{AreBags, IsBagType, flat_type, typed_as, types_of};
ghost use Rattle.mit_ops.specs.Routes.{goes, senders_of, share, target_of, targets_of};
ghost use Rattle.mit_ops.specs.Totals.{aggregate};
ghost use Rattle.mit_ops.specs.declared.kinds.Agg.{Agg};
ghost use Rattle.mit_ops.specs.declared.kinds.Flat.{Flat};
ghost use Rattle.mit_ops.specs.declared.kinds.OpSpec.{OpSpec};
ghost use Rattle.mit_ops.specs.declared.kinds.OpSpec.TheVariants as op;
ghost use Rattle.mit_ops.specs.declared.routes.Route.{Route};
ghost use Rattle.mit_ops.specs.declared.routes.Route.TheVariants.{Broadcast};
ghost use Rattle.mit_ops.specs.declared.types.VarType.{VarType};

use mit_bags::laws::{bags_are_rows_in_order, bags_are_sorted_lists, rows_are_ordered};
use mit_eval::laws::typing_law as expressions_are_typed;
use mit_ops::laws::bag_types_law;

/// However its inputs are cut into parts, the answers of an operator's partitions add up to its answer over the whole bags.
pub fn partition_law()
    ensures parts { (spec : OpSpec) (columns : ℕ → ℕ) (parts : ℕ)
        (cuts : List (List (List RowOf))) (files : FileMap) →
        0 < parts → CutInto parts cuts →
        sum_of_parts spec columns parts cuts files ≡ whole spec (map all_rows cuts) files }
    // an operator in the one partition that there is
    ensures alone { (spec : OpSpec) (inputs : List (List RowOf)) (files : FileMap) →
        part_apply spec 0 1 inputs files ≡ whole spec inputs files }
    // the order of rows does not matter
    ensures order { (spec : OpSpec) (inputs others : List (List RowOf)) (files : FileMap) →
        SameBags inputs others → whole spec inputs files ≡ whole spec others files }
    ensures part_order { (spec : OpSpec) (part parts : ℕ)
        (inputs others : List (List RowOf)) (files : FileMap) → SameBags inputs others →
        part_apply spec part parts inputs files ≡ part_apply spec part parts others files }
    // a write's bag and its name are those of partition 0
    ensures write { (name : Expr) (columns : ℕ → ℕ) (parts : ℕ)
        (cuts : List (List (List RowOf))) (files : FileMap) →
        0 < parts → CutInto parts cuts →
        let write = op.Write name in
        let lists = routed_lists write columns parts 0 cuts in
        (part_apply write 0 parts lists files ≡ whole write (map all_rows cuts) files)
        × (name_written write lists ≡ name_written write (map all_rows cuts)) }
{
    rows_are_ordered();
    bags_are_rows_in_order();
    bags_are_sorted_lists();
}

/// What comes to a partition, sender by sender: nothing from one that is not among the senders, and nothing to one that is not
/// among the targets. Each row goes to one partition, unless all rows go to each.
pub fn routes_law()
    ensures senders { (route : Route) (parts from to : ℕ) (rows : List RowOf) → from < parts →
        let senders = senders_of route to parts in
        (from < senders.0) ⊎ (senders.0 + senders.1 ≤ from) → share rows route parts from to ≡ [] }
    ensures targets { (route : Route) (parts from to : ℕ) (rows : List RowOf) → to < parts →
        let targets = targets_of route from parts in
        (to < targets.0) ⊎ (targets.0 + targets.1 ≤ to) → share rows route parts from to ≡ [] }
    ensures each { (route : Route) (parts from to : ℕ) (row : RowOf) → route ≢ Broadcast →
        goes route parts from to row ≡ (target_of route from parts row == to) }
    ensures below { (route : Route) (parts from : ℕ) (row : RowOf) → from < parts →
        target_of route from parts row < parts }
{}

/// Answers add up in any order and in any grouping, those over rows and those over anything else.
pub fn answers_add_up<X>()
    ensures order { (answer : RowOf → BagOrFault) (rows moved : List RowOf) →
        bag_of rows ≡ bag_of moved → over answer rows ≡ over answer moved }
    ensures more { (answer : X → BagOrFault) (xs : List X) (x : X) →
        over answer (xs ++ x ∷ []) ≡ both (over answer xs) (answer x) }
    ensures commutes { (a b : BagOrFault) → both a b ≡ both b a }
    ensures groups { (a b c : BagOrFault) → both (both a b) c ≡ both a (both b c) }
{
    rows_are_ordered();
    bags_are_rows_in_order();
    bags_are_sorted_lists();
}

/// What an operator gives has the type of a bag, its result's columns, and a scalar's one row stands in partition 0.
///
/// A write, which is kind 14, gives its bag, though its result has no columns. What holds of a part
/// holds of the whole too. Where the column is one of truth values, the one row is such a value.
pub fn typing_law()
    ensures given { (spec : OpSpec) (bags : List VarType) (captures : List ColType)
        (result : VarType) →
        AreBags bags → typed_as spec bags captures ≡ Ok result → IsBagType result }
    ensures columns { (spec : OpSpec) (bags : List VarType) (captures : List ColType)
        (result : VarType) (part parts : ℕ) (inputs : List (List RowOf)) (files : FileMap)
        (rows : List RowOf) →
        FitsAs spec bags captures inputs result → kind_of spec ≢ 14 →
        part_apply spec part parts inputs files ≡ Ok rows → HaveColumns result.cols rows }
    ensures scalar { (spec : OpSpec) (bags : List VarType) (captures : List ColType)
        (result : VarType) (part parts : ℕ) (inputs : List (List RowOf)) (files : FileMap)
        (rows : List RowOf) →
        FitsAs spec bags captures inputs result → IsTrue result.scalar →
        AllZip (StandsIn part) bags (bags_in spec inputs) →
        (part ≡ 0 → All (λ rows. length rows ≡ 1) (drop (bag_inputs_of spec) inputs)) →
        part_apply spec part parts inputs files ≡ Ok rows →
        length rows ≡ (if part == 0 then 1 else 0) }
    ensures whole_columns { (spec : OpSpec) (bags : List VarType) (captures : List ColType)
        (result : VarType) (inputs : List (List RowOf)) (files : FileMap) (rows : List RowOf) →
        FitsAs spec bags captures inputs result → kind_of spec ≢ 14 →
        whole spec inputs files ≡ Ok rows → HaveColumns result.cols rows }
    ensures whole_scalar { (spec : OpSpec) (bags : List VarType) (captures : List ColType)
        (result : VarType) (inputs : List (List RowOf)) (files : FileMap) (rows : List RowOf) →
        FitsAs spec bags captures inputs result → IsTrue result.scalar →
        AllZip (StandsIn 0) bags (bags_in spec inputs) →
        All (λ rows. length rows ≡ 1) (drop (bag_inputs_of spec) inputs) →
        whole spec inputs files ≡ Ok rows → length rows ≡ 1 }
    ensures truth { (rows : List RowOf) → HaveColumns (is.Bool ∷ []) rows → length rows ≡ 1 →
        (truth : Bool) × (rows ≡ (value.Bool truth ∷ []) ∷ []) }
{
    bag_types_law();
    bags_are_rows_in_order();
    expressions_are_typed();
}

/// Over lists that fit an operator, each call for a row may be made.
///
/// These are the requirements of the calls in `each_row`, with the values that are captured among the lists.
pub fn fitting_law()
    ensures map { (exprs : List Expr) (inputs : List (List RowOf)) (captures : List Value) →
        Fits (op.Map exprs) inputs → captures_among (op.Map exprs) inputs ≡ Some captures →
        All (λ row. IsSome (types_of (type_in (map type_of_value row)
        (map type_of_value captures)) exprs)) (rows_at inputs 0) }
    ensures map_few { (exprs : List Expr) (inputs : List (List RowOf)) →
        Fits (op.Map exprs) inputs → length exprs ≤ MAX_COLUMNS }
    ensures filter { (expr : Expr) (inputs : List (List RowOf)) (captures : List Value) →
        Fits (op.Filter expr) inputs → captures_among (op.Filter expr) inputs ≡ Some captures →
        All (λ row. type_in (map type_of_value row) (map type_of_value captures) expr
        ≡ Some is.Bool) (rows_at inputs 0) }
    ensures flat { (flat : Flat) (inputs : List (List RowOf)) (captures : List Value) →
        Fits (op.FlatMap flat) inputs → captures_among (op.FlatMap flat) inputs ≡ Some captures →
        All (λ row. IsSome (flat_type flat (map type_of_value row) (map type_of_value captures)))
        (rows_at inputs 0) }
    ensures flat_narrow { (flat : Flat) (inputs : List (List RowOf)) →
        Fits (op.FlatMap flat) inputs →
        All (λ row. length row + 1 ≤ MAX_COLUMNS) (rows_at inputs 0) }
    ensures scalar { (expr : Expr) (inputs : List (List RowOf)) (captures : List Value) →
        Fits (op.Scalar expr) inputs → captures_among (op.Scalar expr) inputs ≡ Some captures →
        IsSome (type_in [] (map type_of_value captures) expr) }
    ensures make_row { (exprs : List Expr) (inputs : List (List RowOf)) (captures : List Value) →
        Fits (op.MakeRow exprs) inputs → captures_among (op.MakeRow exprs) inputs ≡ Some captures →
        IsSome (types_of (type_in [] (map type_of_value captures)) exprs) }
    ensures make_row_few { (exprs : List Expr) (inputs : List (List RowOf)) →
        Fits (op.MakeRow exprs) inputs → length exprs ≤ MAX_COLUMNS }
    ensures write { (name : Expr) (inputs : List (List RowOf)) (captures : List Value) →
        Fits (op.Write name) inputs → captures_among (op.Write name) inputs ≡ Some captures →
        type_in [] (map type_of_value captures) name ≡ Some is.Text }
    ensures read { (name : Expr) (types : List ColType) (inputs : List (List RowOf))
        (captures : List Value) → Fits (op.Read name types) inputs →
        captures_among (op.Read name types) inputs ≡ Some captures →
        type_in [] (map type_of_value captures) name ≡ Some is.Text }
    ensures join_narrow { (left right : List ℕ) (inputs : List (List RowOf)) →
        Fits (op.Join left right) inputs →
        All (λ before. All (λ row. length before + length row ≤ MAX_COLUMNS) (rows_at inputs 1))
        (rows_at inputs 0) }
{}

/// Over lists that fit a reduction or a sum, what is made of some of the rows is there.
///
/// A key has at most one value for each of its columns, so with what is made of its rows it is a row.
pub fn fitting_groups_law()
    ensures reduce { (keys : List ℕ) (agg : Agg) (inputs : List (List RowOf))
        (rows : List RowOf) → Fits (op.Reduce keys agg) inputs →
        All (Contains (rows_at inputs 0)) rows → rows ≢ [] → aggregate agg rows ≢ untyped }
    ensures reduce_narrow { (keys : List ℕ) (agg : Agg) (inputs : List (List RowOf)) →
        Fits (op.Reduce keys agg) inputs → length keys + 1 ≤ MAX_COLUMNS }
    ensures key { (columns : List ℕ) (row : RowOf) →
        length (key_of columns row) ≤ length columns }
    ensures sum { (column : ℕ) (inputs : List (List RowOf)) → Fits (op.Sum column) inputs →
        All (λ row. slice_get (map type_of_value row) column ≡ Some is.Int) (rows_at inputs 0) }
{}

/// Only a read, which is kind 1, asks for files.
pub fn files_law()
    ensures part { (spec : OpSpec) (part parts : ℕ) (inputs : List (List RowOf))
        (files others : FileMap) → kind_of spec ≢ 1 →
        part_apply spec part parts inputs files ≡ part_apply spec part parts inputs others }
    ensures whole { (spec : OpSpec) (inputs : List (List RowOf)) (files others : FileMap) →
        kind_of spec ≢ 1 → whole spec inputs files ≡ whole spec inputs others }
{}

/// Lists that fit an operator still fit it, and with the same types, where each has only some of its rows, or none.
pub fn fewer_rows_law()
    ensures types { (spec : OpSpec) (bags : List VarType) (captures : List ColType)
        (result : VarType) (inputs others : List (List RowOf)) →
        FitsAs spec bags captures inputs result →
        AllZip (λ fewer all. All (Contains all) fewer) others inputs →
        FitsAs spec bags captures others result }
    ensures fewer { (spec : OpSpec) (inputs others : List (List RowOf)) → Fits spec inputs →
        AllZip (λ fewer all. All (Contains all) fewer) others inputs → Fits spec others }
    ensures none { (spec : OpSpec) (inputs : List (List RowOf)) → Fits spec inputs →
        Fits spec (replicate (length inputs) []) }
{}

/// What is routed to a partition fits the operator too. Where it gives a scalar, its scalars stand where they must.
///
/// In an input's parts a scalar has its one row in the part of partition 0.
pub fn routing_law()
    ensures fits { (spec : OpSpec) (bags : List VarType) (captures : List ColType)
        (result : VarType) (columns : ℕ → ℕ) (parts part : ℕ)
        (cuts : List (List (List RowOf))) →
        FitsAs spec bags captures (map all_rows cuts) result →
        FitsAs spec bags captures (routed_lists spec columns parts part cuts) result }
    ensures stand { (spec : OpSpec) (bags : List VarType) (captures : List ColType)
        (result : VarType) (columns : ℕ → ℕ) (parts part : ℕ)
        (cuts : List (List (List RowOf))) →
        FitsAs spec bags captures (map all_rows cuts) result → IsTrue result.scalar →
        AllZip (λ type cut. (from : ℕ) → StandsIn from type (rows_at cut from)) bags
        (take (bag_inputs_of spec) cuts) →
        AllZip (StandsIn part) bags (bags_in spec (routed_lists spec columns parts part cuts)) }
    // captured scalars come whole to partition 0
    ensures captured { (spec : OpSpec) (columns : ℕ → ℕ) (parts part : ℕ)
        (cuts : List (List (List RowOf))) →
        All (λ rows. length rows ≡ 1) (drop (bag_inputs_of spec) (map all_rows cuts)) →
        part ≡ 0 → All (λ rows. length rows ≡ 1)
        (drop (bag_inputs_of spec) (routed_lists spec columns parts part cuts)) }
    ensures one { (cut : List (List RowOf)) →
        ((from : ℕ) → length (rows_at cut from) ≡ (if from == 0 then 1 else 0)) →
        length (all_rows cut) ≡ 1 }
{}
