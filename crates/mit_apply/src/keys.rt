//! Keys of rows: their hash, whether two are the same, and keys that are kept.
ghost use Rattle.std.specs.Prelude.{◌≡◌, ◌<◌, ◌≤◌, ◌∷◌, [], IfOk, IfNone, IfSome, length, vec_len};
ghost use Rattle.std.specs.Hash as fed;
ghost use Rattle.std.specs.List.{fold};
ghost use Rattle.mit_ops.specs.Forms.{same_row};
ghost use Rattle.mit_ops.specs.Keys as spec;
ghost use Rattle.mit_ops.specs.Keys.{key_bytes, key_hash, key_of, value_bytes};
ghost use Rattle.mit_apply.specs.KeyLaws.{keys_equal, keys_partial, same_hash};

use mit_rows::{MAX_COLUMNS, Row, Value, cmp_values};
use std::alloc::{AllocError, Global};
use std::hash::{Hash, Hasher};
use std::marker::Model;

/// The hash of no bytes, as FNV-1a of 64 bits has it.
const START: u64 = 0xcbf2_9ce4_8422_2325;

/// What FNV-1a of 64 bits multiplies by after each byte.
const PRIME: u64 = 0x0000_0100_0000_01b3;

/// A hash and one more byte.
#[inline]
fn add_byte(hash: u64, byte: u8) -> u64
    ensures { result ≡ spec.hash_byte hash byte }
{
    (hash ^ u64::from(byte)).wrapping_mul(PRIME)
}

/// A hash and these bytes after it.
#[inline]
fn add_bytes(hash: u64, bytes: &[u8]) -> u64
    ensures { result ≡ fold spec.hash_byte hash bytes.now }
{
    bytes
        .iter()
        .fold(hash, |so_far, byte| add_byte(so_far, *byte))
}

/// A hash and the bytes of one more value.
fn add_value(hash: u64, value: &Value) -> u64
    ensures { result ≡ fold spec.hash_byte hash (value_bytes value.now) }
{
    match value {
        Value::Int(number) => add_bytes(add_byte(hash, 0), &number.cast_unsigned().to_le_bytes()),
        Value::Text(text) => {
            let bytes = text.bytes();
            let length = (bytes.len() as u64).to_le_bytes();
            add_bytes(add_bytes(add_byte(hash, 1), &length), bytes)
        }
        Value::Bool(truth) => add_byte(add_byte(hash, 2), u8::from(*truth)),
    }
}

/// The first value of a row's key, and the columns after it.
#[inline]
#[tactic(auto, unfolding(mit_ops::specs::Keys::key_of))]
fn first_value<'a>(columns: &'a [u8], values: &'a [Value]) -> Option<(&'a Value, &'a [u8])>
    ensures some { IfSome result (λ first.
        key_of columns.now values.now ≡ first.0.now ∷ key_of first.1.now values.now) }
    ensures fewer { IfSome result (λ first. length first.1.now < length columns.now) }
    ensures none { IfNone result (key_of columns.now values.now ≡ []) }
{
    let mut rest = columns;
    while let Some((column, later)) = rest.split_first() {
        if let Some(value) = values.get(usize::from(*column)) {
            return Some((value, later));
        }
        rest = later;
    }
    None
}

/// The hash of a row's values in these columns.
#[tactic(auto, using(crate::proofs::KeySteps::hash_more), unfolding(mit_ops::specs::Keys::key_bytes))]
pub fn hash_of(columns: &[u8], row: &Row) -> u64
    ensures { result ≡ key_hash (key_of columns.now row.now) }
{
    let values = row.values();
    let mut rest = columns;
    let mut hash = START;
    while let Some((value, later)) = first_value(rest, values) {
        hash = add_value(hash, value);
        rest = later;
    }
    hash
}

/// The hash of a key.
#[tactic(auto, using(crate::proofs::KeySteps::hash_next), unfolding(mit_ops::specs::Keys::key_bytes))]
fn hash_of_values(values: &[Value]) -> u64
    ensures { result ≡ key_hash values.now }
{
    let mut hash = START;
    for value in values {
        hash = add_value(hash, value);
    }
    hash
}

/// Whether the values of one row in these columns are those of another row in those columns.
pub fn same_key(left_columns: &[u8], left: &Row, right_columns: &[u8], right: &Row) -> bool
    ensures { result ≡ same_row (key_of left_columns.now left.now) (key_of right_columns.now right.now) }
{
    let left = left.values();
    let right = right.values();
    let mut left_rest = left_columns;
    let mut right_rest = right_columns;
    while let Some((x, left_later)) = first_value(left_rest, left) {
        let Some((y, right_later)) = first_value(right_rest, right) else {
            return false;
        };
        if cmp_values(x, y).is_ne() {
            return false;
        }
        left_rest = left_later;
        right_rest = right_later;
    }
    first_value(right_rest, right).is_none()
}

/// Whether two keys are the same.
fn same_values(a: &[Value], b: &[Value]) -> bool
    ensures { result ≡ same_row a.now b.now }
{
    let mut left = a;
    let mut right = b;
    while let Some((x, left_later)) = left.split_first() {
        let Some((y, right_later)) = right.split_first() else {
            return false;
        };
        if cmp_values(x, y).is_ne() {
            return false;
        }
        left = left_later;
        right = right_later;
    }
    right.is_empty()
}

/// A key that is kept: any number of values, which contracts see as their list. It can be a key of a map.
#[derive(Debug, Drop)]
pub struct Key {
    stored: StoredKey,
}

// A key of not too many columns is a row, whose copies share their values.
#[derive(Debug, Drop)]
enum StoredKey {
    Row(Row),
    Wide(Vec<Value>),
}

impl Model for Key {
    ghost use Rattle.std.specs.Prelude.{List};
    ghost use Rattle.mit_rows.specs.declared.value.Value.{Value as OneValue};

    ghost Value = { List OneValue };

    ghost use Rattle.mit_apply.specs.KeyStored.{values_of_key};

    ghost view = { λ k. values_of_key k.stored };
}

impl Key {
    /// The values of a row in these columns, in this order.
    #[tactic(auto, unfolding(mit_ops::specs::Keys::key_of))]
    pub fn of(alloc: Global, columns: &[u8], row: &Row) -> Result<Key, AllocError>
        ensures { IfOk result (λ key. key ≡ key_of columns.now row.now) }
    {
        if let Some((only, [])) = first_value(columns, row.values()) {
            let row = Row::from_value(only.copy()?);
            return Ok(Key {
                stored: StoredKey::Row(row),
            });
        }
        let values = values_in(alloc, columns, row)?;
        let stored = if values.len() <= MAX_COLUMNS {
            StoredKey::Row(Row::from_values(values)?)
        } else {
            StoredKey::Wide(values)
        };
        Ok(Key { stored })
    }

    /// All values of a row.
    pub fn of_row(row: &Row) -> Result<Key, AllocError>
        ensures { IfOk result (λ key. key ≡ row.now) }
    {
        Ok(Key {
            stored: StoredKey::Row(row.copy()?),
        })
    }

    /// Its values.
    pub fn values(&self) -> &[Value]
        ensures { result.now ≡ self.now }
    {
        match &self.stored {
            StoredKey::Row(row) => row.values(),
            StoredKey::Wide(values) => values,
        }
    }

    /// Its values as a row.
    pub fn to_row(&self) -> Result<Row, AllocError>
        requires { length self.now ≤ MAX_COLUMNS }
        ensures { IfOk result (λ row. row ≡ self.now) }
    {
        match &self.stored {
            StoredKey::Row(row) => row.copy(),
            StoredKey::Wide(values) => row_of_copies(values),
        }
    }
}

/// The values of a row in these columns.
fn values_in(alloc: Global, columns: &[u8], row: &Row) -> Result<Vec<Value>, AllocError>
    ensures { IfOk result (λ values. values.items ≡ key_of columns.now row.now) }
{
    let source = row.values();
    let mut rest = columns;
    let mut values = Vec::with_capacity(alloc, columns.len())?;
    while let Some((value, later)) = first_value(rest, source) {
        values.push(value.copy()?)?;
        rest = later;
    }
    Ok(values)
}

/// A row of copies of these values.
fn row_of_copies(values: &Vec<Value>) -> Result<Row, AllocError>
    requires { vec_len values.now ≤ MAX_COLUMNS }
    ensures { IfOk result (λ row. row ≡ values.now.items) }
{
    let mut copies = Vec::with_capacity(*values.allocator(), values.len())?;
    for value in values {
        copies.push(value.copy()?)?;
    }
    Row::from_values(copies)
}

impl PartialEq for Key {
    ghost eq = { same_row };

    ghost laws = { keys_partial };

    fn eq(&self, other: &Key) -> bool {
        same_values(self.values(), other.values())
    }
}

impl Eq for Key {
    ghost laws = { keys_equal };
}

impl Hash for Key {
    ghost hash_input = { λ key. fed.u64 (key_hash key) };

    ghost respects_eq = { same_hash };

    fn hash<H: Hasher>(&self, state: &mut H) {
        hash_of_values(self.values()).hash(state);
    }
}
