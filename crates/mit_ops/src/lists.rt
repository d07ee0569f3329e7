//! Lists inside public types: each is made from a `Vec` without taking memory.
ghost use Rattle.std.specs.Prelude.{◌≡◌, IfOk};
ghost use Rattle.std.specs.List.{range_with_len};

use mit_expr::Expr;
use mit_rows::ColType;
use std::alloc::{AllocError, Global};
use std::marker::Model;

/// Types of columns in their order, which contracts see as their list.
#[derive(Debug, Drop)]
pub struct ColTypes {
    types: Vec<ColType>,
}

impl Model for ColTypes {
    ghost use Rattle.std.specs.Prelude.{List};
    ghost use Rattle.mit_rows.specs.declared.value.ColType.{ColType as OneType};

    ghost Value = { List OneType };

    ghost view = { λ t. t.types.items };
}

impl ColTypes {
    /// A list of these types.
    pub fn from_vec(types: Vec<ColType>) -> ColTypes
        ensures { result ≡ types.items }
    {
        ColTypes { types }
    }

    /// The types.
    pub fn as_slice(&self) -> &[ColType]
        ensures { result.now ≡ self.now }
    {
        &self.types
    }

    /// An equal list.
    pub fn copy(&self, alloc: Global) -> Result<ColTypes, AllocError>
        ensures { IfOk result (λ other. other ≡ self.now) }
    {
        Ok(ColTypes {
            types: Vec::from_slice(alloc, &self.types)?,
        })
    }
}

/// Numbers of columns, from 0, in a list that contracts see as it is.
#[derive(Debug, Drop)]
pub struct Columns {
    numbers: Vec<u8>,
}

impl Model for Columns {
    ghost use Rattle.std.specs.Prelude.{List, ℕ};

    ghost Value = { List ℕ };

    ghost view = { λ c. c.numbers.items };
}

impl Columns {
    /// A list of these numbers.
    pub fn from_vec(numbers: Vec<u8>) -> Columns
        ensures { result ≡ numbers.items }
    {
        Columns { numbers }
    }

    /// The first columns, of which there are so many.
    pub fn first(alloc: Global, count: u8) -> Result<Columns, AllocError>
        ensures { IfOk result (λ columns. columns ≡ range_with_len 0 count) }
    {
        Ok(Columns {
            numbers: (0..count).collect(alloc)?,
        })
    }

    /// The numbers.
    pub fn as_slice(&self) -> &[u8]
        ensures { result.now ≡ self.now }
    {
        &self.numbers
    }

    /// An equal list.
    pub fn copy(&self, alloc: Global) -> Result<Columns, AllocError>
        ensures { IfOk result (λ other. other ≡ self.now) }
    {
        Ok(Columns {
            numbers: Vec::from_slice(alloc, &self.numbers)?,
        })
    }
}

/// Expressions in their order, which contracts see as their list.
#[derive(Debug, Drop)]
pub struct Exprs {
    exprs: Vec<Expr>,
}

impl Model for Exprs {
    ghost use Rattle.std.specs.Prelude.{List};
    ghost use Rattle.mit_expr.specs.declared.expr.Expr.{Expr as OneExpr};

    ghost Value = { List OneExpr };

    ghost use Rattle.mit_expr.specs.contracts.expr.Expr as expr;
    ghost use Rattle.std.specs.Coded.{codes};

    ghost coded = { Prim.hlevel (codes, expr.the_row.coded) };

    ghost view = { λ e. e.exprs.items };
}

impl Exprs {
    /// A list of these expressions.
    pub fn from_vec(exprs: Vec<Expr>) -> Exprs
        ensures { result ≡ exprs.items }
    {
        Exprs { exprs }
    }

    /// The expressions.
    pub fn as_slice(&self) -> &[Expr]
        ensures { result.now ≡ self.now }
    {
        &self.exprs
    }

    /// An equal list.
    pub fn copy(&self, alloc: Global) -> Result<Exprs, AllocError>
        ensures { IfOk result (λ other. other ≡ self.now) }
    {
        let mut exprs = Vec::with_capacity(alloc, self.exprs.len())?;
        for expr in &self.exprs {
            exprs.push(expr.copy(alloc)?)?;
        }
        Ok(Exprs { exprs })
    }
}
