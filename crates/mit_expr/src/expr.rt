ghost use Rattle.std.specs.Prelude.{◌≡◌, IfOk};

use mit_rows::Value;
use sqlite_items::Boxed;
use std::alloc::{AllocError, Global};

/// An operator of two operands.
#[derive(Clone, Copy, Debug, PartialEq, Eq)]
pub enum BinOp {
    /// `+`: the exact sum of two integers, `Overflow` where it is outside 64 bits.
    Add,
    /// `-`: their exact difference, `Overflow` where it is outside 64 bits.
    Sub,
    /// `*`: their exact product, `Overflow` where it is outside 64 bits.
    Mul,
    /// `/`: their quotient, toward zero. `DivideByZero` where the divisor is zero, and `Overflow` where the lowest
    /// integer is divided by -1.
    Div,
    /// `%`: what that division leaves, with the sign of the dividend, and the same faults.
    Rem,
    /// `++`: two texts joined, `TextTooLong` where they have more than 65,536 bytes together.
    Concat,
    /// `==`: whether two values of one type are equal.
    Eq,
    /// `!=`: whether they differ.
    Ne,
    /// `<`: whether the left one is below the right one, in the order of values.
    Lt,
    /// `<=`: whether it is below or equal.
    Le,
    /// `>`: whether it is above.
    Gt,
    /// `>=`: whether it is above or equal.
    Ge,
    /// `and`: whether both hold. The right side is evaluated only where the left one holds.
    And,
    /// `or`: whether one holds. The right side is evaluated only where the left one does not hold.
    Or,
}

/// A function of one argument.
#[derive(Clone, Copy, Debug, PartialEq, Eq)]
pub enum Call {
    /// `text(e)`: an integer in decimal, with a `-` where it is below zero.
    ToText,
    /// `int(e)`: a text as an integer, `NotNumber` where it is not an optional `-` and one or more digits with a
    /// value within 64 bits.
    ToInt,
    /// `len(e)`: how many bytes a text has.
    Len,
}

/// An expression over the columns of a row and captured scalars, which contracts see as a plain tree.
#[derive(Debug, Drop)]
pub enum Expr {
    /// `$k`: the column at this place of the row, from 0.
    Column(u8),
    /// A name: the captured scalar at this place, from 0.
    Capture(u16),
    /// A literal.
    Lit(Value),
    /// An operator between two operands.
    Bin {
        op: BinOp,
        left: Boxed<Expr>,
        right: Boxed<Expr>,
    },
    /// `not`: the other truth value.
    Not(Boxed<Expr>),
    /// A function of one argument.
    Call {
        call: Call,
        arg: Boxed<Expr>,
    },
}

impl Expr {
    /// An equal expression.
    #[cycle(copy)]
    pub fn copy(&self, alloc: Global) -> Result<Expr, AllocError>
        ensures { IfOk result (λ other. other ≡ self.now) }
    {
        match self {
            Expr::Column(column) => Ok(Expr::Column(*column)),
            Expr::Capture(capture) => Ok(Expr::Capture(*capture)),
            Expr::Lit(value) => Ok(Expr::Lit(value.copy()?)),
            Expr::Bin { op, left, right } => Ok(Expr::Bin {
                op: *op,
                left: copy_boxed(alloc, left)?,
                right: copy_boxed(alloc, right)?,
            }),
            Expr::Not(arg) => Ok(Expr::Not(copy_boxed(alloc, arg)?)),
            Expr::Call { call, arg } => Ok(Expr::Call {
                call: *call,
                arg: copy_boxed(alloc, arg)?,
            }),
        }
    }
}

/// An equal operand.
#[cycle(copy)]
fn copy_boxed(alloc: Global, operand: &Boxed<Expr>) -> Result<Boxed<Expr>, AllocError>
    ensures { IfOk result (λ other. other ≡ operand.now) }
{
    Boxed::new(alloc, operand.get().copy(alloc)?)
}
