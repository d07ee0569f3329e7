//! Bags whose rows stand in any order.
ghost use Rattle.std.specs.Prelude.{◌≡◌, ◌≢◌, ◌++◌, [], ◌∷◌, IfNone, IfOk, IfSome, OnOk, length};
ghost use Rattle.mit_rows.specs.Bags.{IsBag, bag_of};

use mit_bags::Bag;
use mit_bags::laws::{bags_are_rows_in_order, bags_are_sorted_lists};
use mit_rows::Row;
use std::alloc::{AllocError, Global};
use std::marker::Model;

/// A bag whose rows stand in any order, which contracts see as the bag. Its rows are sorted only where order is seen.
#[derive(Drop)]
pub(crate) struct Loose {
    rows: Vec<Row>,
}

impl Model for Loose {
    ghost use Rattle.std.specs.Prelude.{List};
    ghost use Rattle.mit_rows.specs.Bags.{bag_of};
    ghost use Rattle.mit_rows.specs.declared.value.Value.{Value as OneValue};

    ghost Value = { List (List OneValue) };

    ghost view = { λ loose. bag_of loose.rows.items };
}

impl Loose {
    /// The bag that holds each of these rows as often as it stands there.
    pub(crate) fn from_rows(rows: Vec<Row>) -> Loose
        ensures { result ≡ bag_of rows.items }
    {
        Loose { rows }
    }

    /// Its rows, in no order.
    pub(crate) fn rows(&self) -> &[Row]
        ensures value { bag_of result.now ≡ self.now }
        ensures sorted { IsBag self.now }
    {
        bags_are_sorted_lists();
        &self.rows
    }

    /// Its one row, where it has exactly one.
    pub(crate) fn single(&self) -> Option<&Row>
        ensures some { IfSome result (λ row. self.now ≡ row.now ∷ []) }
        ensures none { IfNone result (length self.now ≢ 1) }
    {
        bags_are_rows_in_order();
        if self.rows.len() != 1 {
            return None;
        }
        Some(&self.rows[0])
    }

    /// The bag with its rows in order.
    pub(crate) fn into_bag(self) -> Result<Bag, AllocError>
        ensures { IfOk result (λ bag. bag ≡ self) }
    {
        Bag::from_rows(self.rows)
    }

    /// An equal bag with its rows in order.
    pub(crate) fn to_bag(&self, alloc: Global) -> Result<Bag, AllocError>
        ensures { IfOk result (λ bag. bag ≡ self.now) }
    {
        Bag::from_rows(copy_rows(alloc, &self.rows)?)
    }
}

/// Equal rows.
pub(crate) fn copy_rows(alloc: Global, rows: &[Row]) -> Result<Vec<Row>, AllocError>
    ensures { IfOk result (λ copies. copies.items ≡ rows.now) }
{
    let mut copies = Vec::with_capacity(alloc, rows.len())?;
    add_copies(rows, &mut copies)?;
    Ok(copies)
}

/// Adds equal rows.
pub(crate) fn add_copies(rows: &[Row], onto: &mut Vec<Row>) -> Result<(), AllocError>
    ensures { OnOk result (onto.new.items ≡ onto.old.items ++ rows.now) }
{
    for row in rows {
        onto.push(row.copy()?)?;
    }
    Ok(())
}
