//! The fields of a record as the values of a row.
ghost use Rattle.std.specs.Prelude.{◌≡◌, ◌≤◌, ◌<◌, IfOk, IfSome, is_some, length, option_map};
ghost use Rattle.csv.specs.Records.{fields_of};
ghost use Rattle.mit_files.specs.Rows.{bool_of, field_of, row_of, text_of};

use csv::ByteRecord;
use mit_rows::{ColType, MAX_COLUMNS, MAX_TEXT, Row, Text, TextRefused, Value, parse_int};
use std::alloc::{AllocError, Global};

/// The truth value that a field names.
fn parse_bool(field: &[u8]) -> Option<bool>
    ensures { result ≡ bool_of field.now }
{
    if field == b"true".as_slice() {
        Some(true)
    } else if field == b"false".as_slice() {
        Some(false)
    } else {
        None
    }
}

/// A field as text, where it may be the text of a row.
fn parse_text(field: &[u8]) -> Option<&str>
    ensures value { option_map (λ text. text.now) result ≡ text_of field.now }
    ensures short { IfSome result (λ text. length text.now ≤ MAX_TEXT) }
{
    if field.len() > MAX_TEXT {
        return None;
    }
    match str::from_utf8(field) {
        Ok(text) => Some(text),
        Err(_) => None,
    }
}

/// Whether a field fits the type of its column.
fn fits_field(field: &[u8], column: ColType) -> bool
    ensures { result ≡ is_some (field_of column field.now) }
{
    match column {
        ColType::Int => parse_int(field).is_some(),
        ColType::Text => parse_text(field).is_some(),
        ColType::Bool => parse_bool(field).is_some(),
    }
}

/// A field as the value of its column, where it fits the type.
fn value_of_field(alloc: Global, field: &[u8], column: ColType) -> Result<Option<Value>, AllocError>
    ensures { IfOk result (λ value. value ≡ field_of column field.now) }
{
    match column {
        ColType::Int => Ok(parse_int(field).map(Value::Int)),
        ColType::Text => match parse_text(field) {
            Some(text) => match Text::from_str(alloc, text) {
                Ok(text) => Ok(Some(Value::Text(text))),
                Err(TextRefused::TooLong) => unreachable!(),
                Err(TextRefused::NoMemory) => Err(AllocError),
            },
            None => Ok(None),
        },
        ColType::Bool => Ok(parse_bool(field).map(Value::Bool)),
    }
}

/// Whether a record fits columns of these types.
pub(crate) fn fits_record(fields: &ByteRecord, types: &[ColType]) -> bool
    ensures { result ≡ is_some (row_of types.now (fields_of fields.now)) }
{
    if fields.len() != types.len() {
        return false;
    }
    for (column, kind) in types.iter().enumerate() {
        let Some(field) = fields.get(column) else {
            return false;
        };
        if !fits_field(field, *kind) {
            return false;
        }
    }
    true
}

/// The row of a record, where it fits columns of these types.
pub(crate) fn row_of_record(
    alloc: Global,
    fields: &ByteRecord,
    types: &[ColType],
) -> Result<Option<Row>, AllocError>
    requires { length types.now ≤ MAX_COLUMNS }
    ensures { IfOk result (λ row. row ≡ row_of types.now (fields_of fields.now)) }
{
    if fields.len() != types.len() {
        return Ok(None);
    }
    let mut values = Vec::with_capacity(alloc, types.len())?;
    for (column, kind) in types.iter().enumerate() {
        let Some(field) = fields.get(column) else {
            return Ok(None);
        };
        let Some(value) = value_of_field(alloc, field, *kind)? else {
            return Ok(None);
        };
        values.push(value)?;
    }
    Ok(Some(Row::from_values(values)?))
}
