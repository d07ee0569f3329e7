//! The kinds of operators.
ghost use Rattle.std.specs.Prelude.{◌≡◌, IfOk};
ghost use Rattle.mit_ops.specs.Kinds as spec;

use crate::lists::{ColTypes, Columns, Exprs};
use mit_expr::Expr;
use mit_rows::Text;
use std::alloc::{AllocError, Global};

/// The most numbers of one range.
pub const MAX_RANGE: usize = 65_536;

/// What a flat map makes of a row. It gives the row, followed by each of these.
#[derive(Debug, Drop)]
pub enum Flat {
    /// The pieces of a text between the separators, without the empty ones.
    Words {
        /// The text, over the row's columns.
        expr: Expr,
        /// What stands between the pieces: one byte of ASCII.
        separator: Text,
    },
    /// The numbers from `from` up to but without `to`.
    Range {
        /// The first number, over the row's columns.
        from: Expr,
        /// The number after the last one.
        to: Expr,
    },
}

/// What a reduction makes of the rows of one key. Columns are counted from 0.
#[derive(Clone, Copy, Debug, PartialEq, Eq)]
pub enum Agg {
    /// How many there are.
    Count,
    /// The exact sum of an integer column.
    Sum(u8),
    /// The least value of a column.
    Min(u8),
    /// The greatest value of a column.
    Max(u8),
}

/// An operator over bags and captured scalars. The inputs of an operator are its bags first, then the scalars.
#[derive(Debug, Drop)]
pub enum OpSpec {
    /// A scalar of the expression's value.
    Scalar { expr: Expr },
    /// The rows of a file.
    Read { name: Expr, types: ColTypes },
    /// For each row, the row of the expressions' values.
    Map { exprs: Exprs },
    /// The rows for which the expression is true.
    Filter { expr: Expr },
    /// For each row, one row for each thing made of it.
    FlatMap { flat: Flat },
    /// Each row of the first bag followed by each row of the second one with an equal key.
    Join { left: Columns, right: Columns },
    /// One row for each key, followed by what is made of its rows.
    Reduce { keys: Columns, agg: Agg },
    /// The sum of two bags.
    Union,
    /// Each row once.
    Distinct,
    /// The one row of a bag of one column, as a scalar.
    Only,
    /// How many rows a bag has.
    Count,
    /// The exact sum of an integer column.
    Sum { column: u8 },
    /// A bag of the one row of the expressions' values.
    MakeRow { exprs: Exprs },
    /// A bag without rows.
    Empty { types: ColTypes },
    /// Writes a bag to the file of this name.
    Write { name: Expr },
    /// What is given, a bag or a scalar.
    Copy,
}

impl Flat {
    /// An equal one.
    pub fn copy(&self, alloc: Global) -> Result<Flat, AllocError>
        ensures { IfOk result (λ other. other ≡ self.now) }
    {
        match self {
            Flat::Words { expr, separator } => Ok(Flat::Words {
                expr: expr.copy(alloc)?,
                separator: separator.copy()?,
            }),
            Flat::Range { from, to } => Ok(Flat::Range {
                from: from.copy(alloc)?,
                to: to.copy(alloc)?,
            }),
        }
    }

    // One more than the greatest captured scalar that it names, or 0.
    fn captures(&self) -> u32
        ensures { result ≡ spec.captures_in_all (spec.exprs_in self.now) }
    {
        match self {
            Flat::Words { expr, .. } => captures_in(expr),
            Flat::Range { from, to } => captures_in(from).max(captures_in(to)),
        }
    }
}

impl OpSpec {
    /// An equal operator.
    pub fn copy(&self, alloc: Global) -> Result<OpSpec, AllocError>
        ensures { IfOk result (λ other. other ≡ self.now) }
    {
        match self {
            OpSpec::Scalar { expr } => Ok(OpSpec::Scalar {
                expr: expr.copy(alloc)?,
            }),
            OpSpec::Read { name, types } => Ok(OpSpec::Read {
                name: name.copy(alloc)?,
                types: types.copy(alloc)?,
            }),
            OpSpec::Map { exprs } => Ok(OpSpec::Map {
                exprs: exprs.copy(alloc)?,
            }),
            OpSpec::Filter { expr } => Ok(OpSpec::Filter {
                expr: expr.copy(alloc)?,
            }),
            OpSpec::FlatMap { flat } => Ok(OpSpec::FlatMap {
                flat: flat.copy(alloc)?,
            }),
            OpSpec::Join { left, right } => Ok(OpSpec::Join {
                left: left.copy(alloc)?,
                right: right.copy(alloc)?,
            }),
            OpSpec::Reduce { keys, agg } => Ok(OpSpec::Reduce {
                keys: keys.copy(alloc)?,
                agg: *agg,
            }),
            OpSpec::Union => Ok(OpSpec::Union),
            OpSpec::Distinct => Ok(OpSpec::Distinct),
            OpSpec::Only => Ok(OpSpec::Only),
            OpSpec::Count => Ok(OpSpec::Count),
            OpSpec::Sum { column } => Ok(OpSpec::Sum { column: *column }),
            OpSpec::MakeRow { exprs } => Ok(OpSpec::MakeRow {
                exprs: exprs.copy(alloc)?,
            }),
            OpSpec::Empty { types } => Ok(OpSpec::Empty {
                types: types.copy(alloc)?,
            }),
            OpSpec::Write { name } => Ok(OpSpec::Write {
                name: name.copy(alloc)?,
            }),
            OpSpec::Copy => Ok(OpSpec::Copy),
        }
    }

    /// The number of its kind, from 0 to 15.
    pub fn kind(&self) -> u8
        ensures { result ≡ spec.kind_of self.now }
    {
        match self {
            OpSpec::Scalar { .. } => 0,
            OpSpec::Read { .. } => 1,
            OpSpec::Map { .. } => 2,
            OpSpec::Filter { .. } => 3,
            OpSpec::FlatMap { .. } => 4,
            OpSpec::Join { .. } => 5,
            OpSpec::Reduce { .. } => 6,
            OpSpec::Union => 7,
            OpSpec::Distinct => 8,
            OpSpec::Only => 9,
            OpSpec::Count => 10,
            OpSpec::Sum { .. } => 11,
            OpSpec::MakeRow { .. } => 12,
            OpSpec::Empty { .. } => 13,
            OpSpec::Write { .. } => 14,
            OpSpec::Copy => 15,
        }
    }

    /// How many bags it takes: none, one or two.
    pub fn bag_inputs(&self) -> u16
        ensures { result ≡ spec.bag_inputs_of self.now }
    {
        match self {
            OpSpec::Scalar { .. }
            | OpSpec::Read { .. }
            | OpSpec::MakeRow { .. }
            | OpSpec::Empty { .. } => 0,
            OpSpec::Join { .. } | OpSpec::Union => 2,
            _ => 1,
        }
    }

    /// One more than the greatest captured scalar that its expressions name, or 0 where they name none.
    pub fn captures(&self) -> u32
        ensures { result ≡ spec.captures_of self.now }
    {
        match self {
            OpSpec::Scalar { expr } | OpSpec::Filter { expr } => captures_in(expr),
            OpSpec::Read { name, .. } | OpSpec::Write { name } => captures_in(name),
            OpSpec::Map { exprs } | OpSpec::MakeRow { exprs } => captures_in_all(exprs.as_slice()),
            OpSpec::FlatMap { flat } => flat.captures(),
            _ => 0,
        }
    }
}

/// One more than the greatest captured scalar that an expression names, or 0.
fn captures_in(expr: &Expr) -> u32
    ensures { result ≡ spec.captures_in expr.now }
{
    match expr {
        Expr::Column(_) | Expr::Lit(_) => 0,
        Expr::Capture(capture) => u32::from(*capture) + 1,
        Expr::Bin { left, right, .. } => captures_in(left.get()).max(captures_in(right.get())),
        Expr::Not(arg) | Expr::Call { arg, .. } => captures_in(arg.get()),
    }
}

/// The same of all these expressions.
fn captures_in_all(exprs: &[Expr]) -> u32
    ensures { result ≡ spec.captures_in_all exprs.now }
{
    exprs
        .iter()
        .fold(0, |most, expr| most.max(captures_in(expr)))
}
