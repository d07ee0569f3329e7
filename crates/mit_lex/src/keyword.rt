//! The keywords of `TokenKind::Keyword`, by their places in the table of keywords.

/// `and`
pub const AND: u8 = 0;
/// `or`
pub const OR: u8 = 1;
/// `not`
pub const NOT: u8 = 2;
/// `true`
pub const TRUE: u8 = 3;
/// `false`
pub const FALSE: u8 = 4;
/// `int`
pub const INT: u8 = 5;
/// `text`
pub const TEXT: u8 = 6;
/// `bool`
pub const BOOL: u8 = 7;
/// `len`
pub const LEN: u8 = 8;
/// `if`
pub const IF: u8 = 9;
/// `else`
pub const ELSE: u8 = 10;
/// `while`
pub const WHILE: u8 = 11;
/// `read`
pub const READ: u8 = 12;
/// `write`
pub const WRITE: u8 = 13;
/// `to`
pub const TO: u8 = 14;
/// `map`
pub const MAP: u8 = 15;
/// `filter`
pub const FILTER: u8 = 16;
/// `where`
pub const WHERE: u8 = 17;
/// `flat`
pub const FLAT: u8 = 18;
/// `words`
pub const WORDS: u8 = 19;
/// `range`
pub const RANGE: u8 = 20;
/// `join`
pub const JOIN: u8 = 21;
/// `with`
pub const WITH: u8 = 22;
/// `reduce`
pub const REDUCE: u8 = 23;
/// `by`
pub const BY: u8 = 24;
/// `union`
pub const UNION: u8 = 25;
/// `distinct`
pub const DISTINCT: u8 = 26;
/// `only`
pub const ONLY: u8 = 27;
/// `count`
pub const COUNT: u8 = 28;
/// `sum`
pub const SUM: u8 = 29;
/// `min`
pub const MIN: u8 = 30;
/// `max`
pub const MAX: u8 = 31;
/// `row`
pub const ROW: u8 = 32;
/// `empty`
pub const EMPTY: u8 = 33;
