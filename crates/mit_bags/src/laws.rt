//! Laws of the order and of the bags. A call does nothing: its caller learns what it ensures.
ghost use Rattle.std.specs.Prelude.{◌≡◌, ◌≢◌, List, ◌++◌, AllPairs};
ghost use Rattle.std.specs.Cmp.{IsTotalOrder};
ghost use Rattle.std.specs.List.Sorted.{IsPermutation};
ghost use Rattle.mit_rows.specs.Bags.{IsBag, RowOf, bag_of};
ghost use Rattle.mit_rows.specs.Order.{row_cmp};

use std::cmp::Ordering;

/// Rows are in a total order, and no two rows tie.
pub fn rows_are_ordered()
    ensures total { IsTotalOrder row_cmp }
    ensures same { (a b : RowOf) → row_cmp a b ≡ Ordering.Equal → a ≡ b }
{}

/// The bag of a list has its rows, each as often as it stands there, in rising order.
pub fn bags_are_rows_in_order()
    ensures rows { (rows : List RowOf) → IsPermutation rows (bag_of rows) }
    ensures rising { (rows : List RowOf) →
        AllPairs (λ row later. row_cmp row later ≢ Ordering.Greater) (bag_of rows) }
{}

/// The bag of a list stands in order, does not depend on the order of the list, and may be taken part by part.
pub fn bags_are_sorted_lists()
    ensures sorted { (rows : List RowOf) → IsBag (bag_of rows) }
    ensures order { (rows moved : List RowOf) → IsPermutation rows moved → bag_of moved ≡ bag_of rows }
    ensures parts { (first second : List RowOf) → bag_of (bag_of first ++ bag_of second) ≡ bag_of (first ++ second) }
{}
