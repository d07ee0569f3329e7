//! What can be wrong with a script, and where it went wrong.
use mit_rows::Row;

/// What went wrong in a script.
#[derive(Clone, Copy, Debug, PartialEq, Eq, PartialOrd, Ord)]
pub enum FaultKind {
    /// A number is outside its 64 bits.
    Overflow,
    /// The divisor of a division or a remainder is 0.
    DivideByZero,
    /// A text is no number.
    NotNumber,
    /// A text would have more than 65,536 bytes.
    TextTooLong,
    /// A range would have more than 65,536 numbers.
    RangeTooLong,
    /// A bag that should have one row has this many.
    NotOne(u64),
    /// There is no file of this name.
    NoFile,
    /// A text is no legal file name.
    BadName,
    /// The record of this number, counted from 0, is the first that does not fit its columns' types.
    BadRow(u64),
    /// The script decides more often than it may.
    DecisionLimit,
}

/// The fault of an operator, at the row at which it came.
#[derive(Debug, Drop)]
pub struct OpFault {
    /// The row at which it came, which is empty where it belongs to none.
    pub at: Row,
    /// What went wrong.
    pub kind: FaultKind,
}

/// The fault of a script.
#[derive(Clone, Copy, Debug, PartialEq, Eq)]
pub struct ScriptFault {
    /// The statement at fault, counted from 1.
    pub statement: u32,
    /// How many decisions were taken before.
    pub decisions: u32,
    /// What went wrong.
    pub kind: FaultKind,
}
