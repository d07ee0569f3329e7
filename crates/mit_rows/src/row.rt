ghost use Rattle.std.specs.Prelude.{◌≡◌, ◌≤◌, ◌<◌, ◌+◌, ◌++◌, ◌∷◌, [], IfOk, OnOk, Some, length, slice_get, vec_len};
ghost use Rattle.mit_rows.specs.Order.{row_cmp, value_cmp};
ghost use Rattle.mit_rows.specs.Stored.{Leads};

use crate::value::Value;
use std::alloc::{AllocError, Global};
use std::cmp::Ordering;
use std::fmt::{self, Debug, Formatter, Write};
use std::marker::Model;
use std::rc::Rc;
use std::slice;

/// The most columns of a row.
pub const MAX_COLUMNS: usize = 16;

/// A row of at most `MAX_COLUMNS` values, which contracts see as their list. Copies share their values.
#[derive(Drop)]
pub struct Row {
    stored: Stored,
}

// Few reads tell two rows apart: those of their first integers, or of the fronts of their first texts, which stand in the
// rows themselves.
#[derive(Clone, Copy)]
enum Lead {
    // the first value is this integer
    Number(i64),
    // the first value is a text with this front
    Front(u64),
    Other,
}

enum Stored {
    Nothing,
    One(Value),
    Two(Lead, Rc<[Value; 2]>),
    Three(Lead, Rc<[Value; 3]>),
    Four(Lead, Rc<[Value; 4]>),
    Many(Lead, Rc<Vec<Value>>),
}

// One call for all, so that no caller's proof has to tell them apart.
impl Drop for Stored {
    #[inline]
    fn drop(self) {
        match self {
            Stored::Nothing => {}
            Stored::One(value) => drop(value),
            Stored::Two(_, values) => drop(values),
            Stored::Three(_, values) => drop(values),
            Stored::Four(_, values) => drop(values),
            Stored::Many(_, values) => drop(values),
        }
    }
}

impl Model for Row {
    ghost use Rattle.std.specs.Prelude.{List, ◌≤◌, length};
    ghost use Rattle.mit_rows.specs.declared.row.TheConstants.{MAX_COLUMNS};
    ghost use Rattle.mit_rows.specs.declared.value.Value.{Value as OneValue};

    ghost Value = { List OneValue };

    ghost use Rattle.mit_rows.specs.Stored.{IsLed, stored_values};

    ghost view = { λ r. stored_values r.stored };

    ghost invariant = { λ r. (length (stored_values r.stored) ≤ MAX_COLUMNS) × IsLed r.stored };
}

impl Row {
    /// A row of no values.
    pub fn empty() -> Row
        ensures { result ≡ [] }
    {
        Row {
            stored: Stored::Nothing,
        }
    }

    /// A row of this one value.
    pub fn from_value(value: Value) -> Row
        ensures { result ≡ value ∷ [] }
    {
        Row {
            stored: Stored::One(value),
        }
    }

    /// A row of these two values.
    pub fn from_pair(alloc: Global, first: Value, second: Value) -> Result<Row, AllocError>
        ensures { IfOk result (λ row. row ≡ first ∷ second ∷ []) }
    {
        let lead = lead_of(slice::from_ref(&first));
        Ok(Row {
            stored: Stored::Two(lead, Rc::new(alloc, [first, second])?),
        })
    }

    // A row of these three values.
    fn from_three(alloc: Global, values: [Value; 3]) -> Result<Row, AllocError>
        ensures { IfOk result (λ row. row ≡ values) }
    {
        let lead = lead_of(&values);
        Ok(Row {
            stored: Stored::Three(lead, Rc::new(alloc, values)?),
        })
    }

    // A row of these four values.
    fn from_four(alloc: Global, values: [Value; 4]) -> Result<Row, AllocError>
        ensures { IfOk result (λ row. row ≡ values) }
    {
        let lead = lead_of(&values);
        Ok(Row {
            stored: Stored::Four(lead, Rc::new(alloc, values)?),
        })
    }

    /// A row of these values.
    pub fn from_values(mut values: Vec<Value>) -> Result<Row, AllocError>
        requires { vec_len values ≤ MAX_COLUMNS }
        ensures { IfOk result (λ row. row ≡ values.items) }
    {
        match values.len() {
            1 => Ok(Row::from_value(last(&mut values))),
            2 => {
                let second = last(&mut values);
                Row::from_pair(*values.allocator(), last(&mut values), second)
            }
            3 => {
                let third = last(&mut values);
                let second = last(&mut values);
                Row::from_three(*values.allocator(), [last(&mut values), second, third])
            }
            4 => {
                let fourth = last(&mut values);
                let third = last(&mut values);
                let second = last(&mut values);
                Row::from_four(
                    *values.allocator(),
                    [last(&mut values), second, third, fourth],
                )
            }
            _ => {
                let alloc = *values.allocator();
                let lead = lead_of(&values);
                Ok(Row {
                    stored: Stored::Many(lead, Rc::new(alloc, values)?),
                })
            }
        }
    }

    /// The row of the values of one row and then of another.
    pub fn joined(alloc: Global, left: &Row, right: &Row) -> Result<Row, AllocError>
        requires { length left.now + length right.now ≤ MAX_COLUMNS }
        ensures { IfOk result (λ row. row ≡ left.now ++ right.now) }
    {
        let (left, right) = (left.values(), right.values());
        match left.len() + right.len() {
            2 => copied_pair(alloc, value_at(left, right, 0), value_at(left, right, 1)),
            3 => copied_three(
                alloc,
                value_at(left, right, 0),
                value_at(left, right, 1),
                value_at(left, right, 2),
            ),
            4 => copied_four(
                alloc,
                value_at(left, right, 0),
                value_at(left, right, 1),
                value_at(left, right, 2),
                value_at(left, right, 3),
            ),
            _ => copied_all(alloc, left, right),
        }
    }

    /// Its values, column by column.
    pub fn values(&self) -> &[Value]
        ensures value { result.now ≡ self.now }
        ensures few { length self.now ≤ MAX_COLUMNS }
    {
        match &self.stored {
            Stored::Nothing => &[],
            Stored::One(value) => slice::from_ref(value),
            Stored::Two(_, values) => values.as_ref(),
            Stored::Three(_, values) => values.as_ref(),
            Stored::Four(_, values) => values.as_ref(),
            Stored::Many(_, values) => values.as_ref(),
        }
    }

    // What leads its values, where that stands in the row itself.
    #[inline]
    fn lead(&self) -> Lead
        ensures { Leads result self.now }
    {
        match &self.stored {
            Stored::One(Value::Int(number)) => Lead::Number(*number),
            Stored::Nothing | Stored::One(_) => Lead::Other,
            Stored::Two(lead, _)
            | Stored::Three(lead, _)
            | Stored::Four(lead, _)
            | Stored::Many(lead, _) => *lead,
        }
    }

    /// An equal row.
    pub fn copy(&self) -> Result<Row, AllocError>
        ensures { IfOk result (λ other. other ≡ self.now) }
    {
        let stored = match &self.stored {
            Stored::Nothing => Stored::Nothing,
            Stored::One(value) => Stored::One(value.copy()?),
            Stored::Two(lead, values) => Stored::Two(*lead, values.clone()?),
            Stored::Three(lead, values) => Stored::Three(*lead, values.clone()?),
            Stored::Four(lead, values) => Stored::Four(*lead, values.clone()?),
            Stored::Many(lead, values) => Stored::Many(*lead, values.clone()?),
        };
        Ok(Row { stored })
    }
}

impl Debug for Row {
    fn fmt<W: Write>(&self, f: &mut Formatter<W>) -> fmt::Result {
        Debug::fmt(self.values(), f)
    }
}

// The value at this place of one list and then of another.
#[inline]
fn value_at<'a>(left: &'a [Value], right: &'a [Value], place: usize) -> &'a Value
    requires { place < length left.now + length right.now }
    ensures { slice_get (left.now ++ right.now) place ≡ Some result.now }
{
    if place < left.len() {
        &left[place]
    } else {
        &right[place - left.len()]
    }
}

// A row of copies of these two values.
fn copied_pair(alloc: Global, a: &Value, b: &Value) -> Result<Row, AllocError>
    ensures { IfOk result (λ row. row ≡ a.now ∷ b.now ∷ []) }
{
    Row::from_pair(alloc, a.copy()?, b.copy()?)
}

// A row of copies of these three values.
fn copied_three(alloc: Global, a: &Value, b: &Value, c: &Value) -> Result<Row, AllocError>
    ensures { IfOk result (λ row. row ≡ a.now ∷ b.now ∷ c.now ∷ []) }
{
    Row::from_three(alloc, [a.copy()?, b.copy()?, c.copy()?])
}

// A row of copies of these four values.
fn copied_four(alloc: Global, a: &Value, b: &Value, c: &Value, d: &Value) -> Result<Row, AllocError>
    ensures { IfOk result (λ row. row ≡ a.now ∷ b.now ∷ c.now ∷ d.now ∷ []) }
{
    Row::from_four(alloc, [a.copy()?, b.copy()?, c.copy()?, d.copy()?])
}

// A row of copies of the values of one list and then of another.
fn copied_all(alloc: Global, left: &[Value], right: &[Value]) -> Result<Row, AllocError>
    requires { length left.now + length right.now ≤ MAX_COLUMNS }
    ensures { IfOk result (λ row. row ≡ left.now ++ right.now) }
{
    let mut values = Vec::with_capacity(alloc, left.len() + right.len())?;
    add_copies(left, &mut values)?;
    add_copies(right, &mut values)?;
    Row::from_values(values)
}

// The last value, taken out.
fn last(values: &mut Vec<Value>) -> Value
    requires { 0 < vec_len values.old }
    ensures items { values.old.items ≡ values.new.items ++ result ∷ [] }
    ensures length { vec_len values.old ≡ vec_len values.new + 1 }
{
    match values.pop() {
        Some(value) => value,
        None => unreachable!(),
    }
}

// Adds copies of these values.
fn add_copies(values: &[Value], onto: &mut Vec<Value>) -> Result<(), AllocError>
    ensures { OnOk result (onto.new.items ≡ onto.old.items ++ values.now) }
{
    for value in values {
        onto.push(value.copy()?)?;
    }
    Ok(())
}

// What leads these values.
fn lead_of(values: &[Value]) -> Lead
    ensures { Leads result values.now }
{
    match values.first() {
        Some(Value::Int(number)) => Lead::Number(*number),
        Some(Value::Text(text)) => Lead::Front(text.front()),
        _ => Lead::Other,
    }
}

/// Compares two rows column by column. A row that is a proper prefix of another is below it.
#[inline]
pub fn cmp_rows(a: &Row, b: &Row) -> Ordering
    ensures { result ≡ row_cmp a.now b.now }
{
    match (a.lead(), b.lead()) {
        (Lead::Number(x), Lead::Number(y)) if x != y => x.cmp(&y),
        (Lead::Front(x), Lead::Front(y)) if x != y => x.cmp(&y),
        _ => cmp_all_values(a.values(), b.values()),
    }
}

// Most rows differ in what stands in themselves, so this stays out of the loops of a sort.
#[inline(never)]
fn cmp_all_values(a: &[Value], b: &[Value]) -> Ordering
    ensures { result ≡ row_cmp a.now b.now }
{
    let mut left = a;
    let mut right = b;
    while let Some((x, next_left)) = left.split_first() {
        let Some((y, next_right)) = right.split_first() else {
            return Ordering::Greater;
        };
        match cmp_values(x, y) {
            Ordering::Equal => {}
            decided => return decided,
        }
        left = next_left;
        right = next_right;
    }
    if right.is_empty() {
        Ordering::Equal
    } else {
        Ordering::Less
    }
}

/// Compares two values: integers by value, texts by bytes, false before true, and one kind below the next.
pub fn cmp_values(a: &Value, b: &Value) -> Ordering
    ensures { result ≡ value_cmp a.now b.now }
{
    match (a, b) {
        (Value::Int(x), Value::Int(y)) => x.cmp(y),
        (Value::Text(x), Value::Text(y)) => x.bytes().cmp(y.bytes()),
        (Value::Bool(x), Value::Bool(y)) => x.cmp(y),
        (Value::Int(_), _) | (Value::Text(_), Value::Bool(_)) => Ordering::Less,
        (_, Value::Int(_)) | (Value::Bool(_), Value::Text(_)) => Ordering::Greater,
    }
}
