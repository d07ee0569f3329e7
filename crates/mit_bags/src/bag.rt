ghost use Rattle.std.specs.Prelude.{◌≡◌, ◌<◌, ◌+◌, ◌++◌, ◌↔◌, IfOk, IfSome, IsSome, length, option_to_list, vec_len};
ghost use Rattle.mit_rows.specs.Bags.{IsBag, bag_of, bag_sum};
ghost use Rattle.mit_rows.specs.Order.{row_cmp};
ghost use Rattle.mit_bags.specs.Merging.{IsSideOf, TakesGreatest};

use mit_rows::{Row, cmp_rows};
use std::alloc::{AllocError, Global};
use std::cmp::Ordering;
use std::marker::Model;

/// After how many rows a list that shrinks lets go of memory.
const ROWS_KEPT: usize = 65_536;

/// The order of rows, for a sort, which takes no function of another crate by its name.
#[inline]
fn in_order(a: &Row, b: &Row) -> Ordering
    ensures { result ≡ row_cmp a.now b.now }
{
    cmp_rows(a, b)
}

/// A finite multiset of rows, which contracts see as its sorted list.
#[derive(Debug, Drop)]
pub struct Bag {
    rows: Vec<Row>,
}

impl Model for Bag {
    ghost use Rattle.std.specs.Prelude.{List};
    ghost use Rattle.mit_rows.specs.declared.value.Value.{Value as OneValue};

    ghost Value = { List (List OneValue) };

    ghost use Rattle.mit_rows.specs.Bags.{IsBag};

    ghost view = { λ b. b.rows.items };

    ghost invariant = { λ b. IsBag b.rows.items };
}

impl Bag {
    /// The bag that holds each of these rows as often as it stands there. `rows` are dropped where memory runs out.
    pub fn from_rows(mut rows: Vec<Row>) -> Result<Bag, AllocError>
        ensures { IfOk result (λ bag. bag ≡ bag_of rows.items) }
    {
        rows.sort_unstable_by(in_order);
        Ok(Bag { rows })
    }

    /// The sum of these bags: how often a row stands in each, added. `bags` are dropped where memory runs out.
    pub fn join_all(alloc: Global, bags: Vec<Bag>) -> Result<Bag, AllocError>
        ensures { IfOk result (λ bag. bag ≡ bag_sum bags.items) }
    {
        let mut sum = Bag {
            rows: Vec::new(alloc),
        };
        for bag in bags {
            sum = sum.joined(alloc, bag)?;
        }
        Ok(sum)
    }

    // The sum of this bag and another. The memory of both is let go as their rows move.
    fn joined(self, alloc: Global, other: Bag) -> Result<Bag, AllocError>
        ensures { IfOk result (λ sum. sum ≡ bag_of (self ++ other)) }
    {
        if self.rows.is_empty() {
            // a use of the field, which tells the proof that the bag is in order
            let _ = &other.rows;
            return Ok(other);
        }
        let mut left = self.rows;
        let mut right = other.rows;
        let mut rows = Vec::with_capacity(alloc, left.len().saturating_add(right.len()))?;
        while let Some(row) = pop_greatest(&mut left, &mut right) {
            rows.push(row)?;
        }
        rows.reverse();
        Ok(Bag { rows })
    }

    /// Its rows in rising order.
    pub fn rows(&self) -> &[Row]
        ensures value { result.now ≡ self.now }
        ensures sorted { IsBag self.now }
    {
        &self.rows
    }

    /// An equal bag.
    pub fn copy(&self, alloc: Global) -> Result<Bag, AllocError>
        ensures { IfOk result (λ other. other ≡ self.now) }
    {
        let mut rows = Vec::with_capacity(alloc, self.rows.len())?;
        for row in &self.rows {
            rows.push(row.copy()?)?;
        }
        Ok(Bag { rows })
    }
}

// Takes out the greatest row of two rising lists.
fn pop_greatest(left: &mut Vec<Row>, right: &mut Vec<Row>) -> Option<Row>
    ensures greatest { TakesGreatest left.old.items right.old.items left.new.items right.new.items result }
    ensures fewer { IfSome result (λ _. vec_len left.new + vec_len right.new < vec_len left.old + vec_len right.old) }
{
    if is_left_greatest(left, right) {
        pop_last(left)
    } else {
        pop_last(right)
    }
}

// Which list has the greatest row: the left one, where it has a row and the right one does not end above that.
fn is_left_greatest(left: &[Row], right: &[Row]) -> bool
    ensures { IsSideOf left.now right.now result }
{
    match (left.last(), right.last()) {
        (Some(a), Some(b)) => cmp_rows(a, b).is_ge(),
        (Some(_), None) => true,
        (None, _) => false,
    }
}

// Takes out the last row. Now and then it lets go of the memory that the list does not need any more.
fn pop_last(rows: &mut Vec<Row>) -> Option<Row>
    ensures items { rows.old.items ≡ rows.new.items ++ option_to_list result }
    ensures variant { IsSome result ↔ (0 < length rows.old.items) }
{
    let row = rows.pop();
    if rows.len() % ROWS_KEPT == 0 {
        rows.shrink_to_fit();
    }
    row
}
