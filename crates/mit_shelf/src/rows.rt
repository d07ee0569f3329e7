//! The rows of a file, read from its bytes.
ghost use Rattle.std.specs.Prelude.{◌≡◌, ◌≤◌, ◌<◌, ◌%◌, ◌==◌, Ok, IfOk, IfErr, length};
ghost use Rattle.csv.specs.Records.{fields_of};
ghost use Rattle.mit_files.specs.Rows.{row_of, rows_of, rows_of_part};
ghost use Rattle.mit_shelf.specs.Adding.{AddsRow};
ghost use Rattle.mit_shelf.specs.Refused.{TellsBadRow};

use crate::fields::{fits_record, row_of_record};
use csv::{ByteRecord, ReaderBuilder};
use mit_rows::{ColType, MAX_COLUMNS, Row};
use std::alloc::{AllocError, Global};

/// Why the bytes of a file give no rows.
#[derive(Clone, Copy, Debug, PartialEq, Eq)]
pub enum RowsRefused {
    /// The record of this number, counted from 0, is the first that does not fit.
    BadRow(u64),
    /// Memory ran out.
    NoMemory,
}

impl From<AllocError> for RowsRefused {
    ghost use Rattle.std.specs.Prelude.{◌≡◌};
    ghost use Rattle.mit_shelf.specs.declared.rows.RowsRefused.TheVariants.{NoMemory};

    ghost from_gives = { λ _ refused. refused ≡ NoMemory };

    fn from(_error: AllocError) -> RowsRefused {
        RowsRefused::NoMemory
    }
}

/// The rows of a file with columns of these types. The bytes are CSV as `csv` reads it: no header, commas, quotes `"`,
/// nothing trimmed, and records of any lengths, of which each has to have as many fields as there are types.
pub fn parse_rows(alloc: Global, bytes: &[u8], types: &[ColType]) -> Result<Vec<Row>, RowsRefused>
    requires { length types.now ≤ MAX_COLUMNS }
    ensures rows { IfOk result (λ rows. rows_of bytes.now types.now ≡ Ok rows.items) }
    ensures refused { IfErr result (λ stop. TellsBadRow (rows_of bytes.now types.now) stop) }
{
    parse_part(alloc, bytes, types, 0, 1)
}

/// Those rows of a file whose record numbers, counted from 0, are `part` modulo `parts`. Each record of the file has to
/// fit, but no row of another part is made.
///
/// Each error of the reader is answered as `NoMemory`: over bytes in memory nothing else fails.
pub fn parse_part(
    alloc: Global,
    bytes: &[u8],
    types: &[ColType],
    part: u16,
    parts: u16,
) -> Result<Vec<Row>, RowsRefused>
    requires few { length types.now ≤ MAX_COLUMNS }
    requires among { part < parts }
    ensures rows { IfOk result (λ rows. rows_of_part part parts (rows_of bytes.now types.now) ≡ Ok rows.items) }
    ensures refused { IfErr result (λ stop. TellsBadRow (rows_of bytes.now types.now) stop) }
{
    let mut reader = ReaderBuilder::new()
        .has_headers(false)
        .flexible(true)
        .from_reader(alloc, bytes);
    let mut record = ByteRecord::new(alloc);
    let mut rows = Vec::new(alloc);
    for number in 0..u64::MAX {
        let Ok(found) = reader.read_byte_record(&mut record) else {
            return Err(RowsRefused::NoMemory);
        };
        if !found {
            return Ok(rows);
        }
        let wanted = is_of_part(number, part, parts);
        let fits = add_row(alloc, &record, types, wanted, &mut rows)?;
        if !fits {
            return Err(RowsRefused::BadRow(number));
        }
    }
    Err(RowsRefused::NoMemory)
}

/// Whether the record of this number is of the part.
fn is_of_part(number: u64, part: u16, parts: u16) -> bool
    requires { part < parts }
    ensures { result ≡ (number % parts == part) }
{
    number % u64::from(parts) == u64::from(part)
}

/// Adds the row of a record that fits to `rows`, where it is wanted, and answers whether the record fits.
fn add_row(
    alloc: Global,
    fields: &ByteRecord,
    types: &[ColType],
    wanted: bool,
    rows: &mut Vec<Row>,
) -> Result<bool, AllocError>
    requires { length types.now ≤ MAX_COLUMNS }
    ensures { IfOk result (AddsRow wanted (row_of types.now (fields_of fields.now)) rows.old.items rows.new.items) }
{
    if !wanted {
        return Ok(fits_record(fields, types));
    }
    match row_of_record(alloc, fields, types)? {
        Some(row) => {
            rows.push(row)?;
            Ok(true)
        }
        None => Ok(false),
    }
}
