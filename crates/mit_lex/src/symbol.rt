//! The symbols of `TokenKind::Symbol`, by their places in the table of symbols.

/// `=`
pub const EQUALS: u8 = 0;
/// `;`
pub const SEMICOLON: u8 = 1;
/// `,`
pub const COMMA: u8 = 2;
/// `(`
pub const LEFT_PAREN: u8 = 3;
/// `)`
pub const RIGHT_PAREN: u8 = 4;
/// `[`
pub const LEFT_BRACKET: u8 = 5;
/// `]`
pub const RIGHT_BRACKET: u8 = 6;
/// `{`
pub const LEFT_BRACE: u8 = 7;
/// `}`
pub const RIGHT_BRACE: u8 = 8;
/// `+`
pub const PLUS: u8 = 9;
/// `-`
pub const MINUS: u8 = 10;
/// `*`
pub const TIMES: u8 = 11;
/// `/`
pub const DIVIDE: u8 = 12;
/// `%`
pub const REMAINDER: u8 = 13;
/// `++`
pub const JOINED: u8 = 14;
/// `==`
pub const SAME: u8 = 15;
/// `!=`
pub const DIFFERENT: u8 = 16;
/// `<`
pub const BELOW: u8 = 17;
/// `<=`
pub const AT_MOST: u8 = 18;
/// `>`
pub const ABOVE: u8 = 19;
/// `>=`
pub const AT_LEAST: u8 = 20;
