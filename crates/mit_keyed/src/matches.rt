//! The rows of a join, by an index of its left rows.
ghost use Rattle.std.specs.Prelude.{◌≡◌, ◌<◌, ◌+◌, ◌++◌, ℕ, IfOk, OnErr, OnOk, length, map, take};
ghost use Rattle.std.specs.List.{All, filter, flat_map};
ghost use Rattle.mit_ops.specs.Keys.{key_hash, key_of};
ghost use Rattle.mit_keyed.specs.Indexes.{IsIndex, IsNarrow, has_one_key, joined_row, matches_of, pairs_by_hash, pairs_with, places_of, rows_at_places};

use crate::index::Index;
use mit_apply::{hash_of, same_key};
use mit_rows::Row;
use std::alloc::{AllocError, Global};

/// How many right rows are looked up at a time: the processor then fetches what several of them need at once.
const AT_ONCE: usize = 1_024;

/// Adds the rows of a join: the left rows with the key of a right row, each followed by it. Where it stops, some may stay.
pub fn add_joined(
    alloc: Global,
    index: &Index,
    lefts: &[Row],
    left_keys: &[u8],
    rights: &[Row],
    right_keys: &[u8],
    out: &mut Vec<Row>,
) -> Result<(), AllocError>
    requires indexed { IsIndex left_keys.now lefts.now index.now }
    requires narrow { All (λ left. All (λ right. IsNarrow (left, right)) rights.now) lefts.now }
    ensures ok { OnOk result (out.new.items ≡ out.old.items
        ++ flat_map (matches_of left_keys.now right_keys.now lefts.now) rights.now) }
    ensures err { OnErr result (take (length out.old.items) out.new.items ≡ out.old.items) }
{
    let mut rest = rights;
    while !rest.is_empty() {
        let (some, later) = rest.split_at(rest.len().min(AT_ONCE));
        let pairs = all_pairs(alloc, index, lefts, some, right_keys)?;
        let matches = with_one_key(alloc, &pairs, left_keys, right_keys)?;
        add_pairs(alloc, &matches, out)?;
        rest = later;
    }
    Ok(())
}

/// The left rows at the hash of each right row's key, each with it.
fn all_pairs<'a>(
    alloc: Global,
    index: &Index,
    lefts: &'a [Row],
    rights: &'a [Row],
    right_keys: &[u8],
) -> Result<Vec<(&'a Row, &'a Row)>, AllocError>
    requires { (hash : ℕ) → All (λ place. place < length lefts.now) (places_of index.now hash) }
    ensures { IfOk result (λ pairs. map (λ pair. (pair.0.now, pair.1.now)) pairs.items
        ≡ flat_map (pairs_by_hash index.now lefts.now right_keys.now) rights.now) }
{
    let hashes = hashes_of(alloc, rights, right_keys)?;
    let mut pairs = Vec::with_capacity(alloc, rights.len())?;
    for (number, right) in rights.iter().enumerate() {
        pair_up(lefts, index.places(hashes[number]), right, &mut pairs)?;
    }
    Ok(pairs)
}

/// The hash of each row's key.
fn hashes_of(alloc: Global, rows: &[Row], keys: &[u8]) -> Result<Vec<u64>, AllocError>
    ensures { IfOk result (λ hashes. hashes.items ≡ map (λ row. key_hash (key_of keys.now row)) rows.now) }
{
    let mut hashes = Vec::with_capacity(alloc, rows.len())?;
    for row in rows {
        hashes.push(hash_of(keys, row))?;
    }
    Ok(hashes)
}

/// Adds the left rows at these places, each with a right row.
fn pair_up<'a>(
    lefts: &'a [Row],
    places: &[usize],
    right: &'a Row,
    pairs: &mut Vec<(&'a Row, &'a Row)>,
) -> Result<(), AllocError>
    requires { All (λ place. place < length lefts.now) places.now }
    ensures { OnOk result (map (λ pair. (pair.0.now, pair.1.now)) pairs.new.items
        ≡ map (λ pair. (pair.0.now, pair.1.now)) pairs.old.items
        ++ pairs_with right.now (rows_at_places lefts.now places.now)) }
{
    for place in places {
        pairs.push((&lefts[*place], right))?;
    }
    Ok(())
}

/// Those of these pairs whose rows have the same key.
fn with_one_key<'a>(
    alloc: Global,
    pairs: &[(&'a Row, &'a Row)],
    left_keys: &[u8],
    right_keys: &[u8],
) -> Result<Vec<(&'a Row, &'a Row)>, AllocError>
    ensures { IfOk result (λ found. map (λ pair. (pair.0.now, pair.1.now)) found.items
        ≡ filter (has_one_key left_keys.now right_keys.now) (map (λ pair. (pair.0.now, pair.1.now)) pairs.now)) }
{
    let mut found = Vec::with_capacity(alloc, pairs.len())?;
    for (left, right) in pairs {
        if same_key(right_keys, right, left_keys, left) {
            found.push((*left, *right))?;
        }
    }
    Ok(found)
}

/// Adds the left row of each pair followed by the right one. Where it stops, some may stay.
fn add_pairs(alloc: Global, pairs: &[(&Row, &Row)], out: &mut Vec<Row>) -> Result<(), AllocError>
    requires { All IsNarrow (map (λ pair. (pair.0.now, pair.1.now)) pairs.now) }
    ensures ok { OnOk result (out.new.items ≡ out.old.items
        ++ map joined_row (map (λ pair. (pair.0.now, pair.1.now)) pairs.now)) }
    ensures err { OnErr result (take (length out.old.items) out.new.items ≡ out.old.items) }
{
    for (left, right) in pairs {
        out.push(Row::joined(alloc, left, right)?)?;
    }
    Ok(())
}
