//! The join of two bags, by an index of the rows of the first.
ghost use Rattle.std.specs.Prelude.{◌≡◌, ◌≤◌, ◌+◌, ◌++◌, IfOk, Ok, length, map};
ghost use Rattle.std.specs.List.{All};
ghost use Rattle.mit_rows.specs.declared.row.TheConstants.{MAX_COLUMNS};
ghost use Rattle.mit_ops.specs.Answers.{over};
ghost use Rattle.mit_ops.specs.Forms.{with_key};
ghost use Rattle.mit_ops.specs.Keys.{key_of};
ghost use Rattle.mit_keyed.specs.Indexes.{IsIndex};

use crate::loose::Loose;
use mit_apply::hash_of;
use mit_keyed::laws::index_law;
use mit_keyed::{Index, add_joined};
use mit_rows::Row;
use std::alloc::{AllocError, Global};

/// The bag of a join by these columns over these rows.
pub fn joined_rows(
    alloc: Global,
    left: &[u8],
    lefts: &[Row],
    right: &[u8],
    rights: &[Row],
) -> Result<Loose, AllocError>
    requires { All (λ before. All (λ row. length before + length row ≤ MAX_COLUMNS) rights.now)
        lefts.now }
    ensures { IfOk result (λ bag. Ok bag ≡ over (λ row. Ok (map (λ before. before ++ row)
        (with_key (key_of left.now) (key_of right.now row) lefts.now))) rights.now) }
{
    index_law();
    let index = indexed(alloc, left, lefts)?;
    let mut made = Vec::new(alloc);
    add_joined(alloc, &index, lefts, left, rights, right, &mut made)?;
    Ok(Loose::from_rows(made))
}

/// The places of the rows with each hash of a key.
fn indexed(alloc: Global, left: &[u8], lefts: &[Row]) -> Result<Index, AllocError>
    ensures { IfOk result (IsIndex left.now lefts.now) }
{
    index_law();
    let mut index = Index::new(alloc);
    for (place, row) in lefts.iter().enumerate() {
        index.note(alloc, hash_of(left, row), place)?;
    }
    Ok(index)
}
