//! Values and rows: what a script computes with. What a bag of rows is stands here as a definition.
#![tactic(auto)]

mod integers;
mod row;
mod text;
mod value;

pub use integers::parse_int;
pub use row::{MAX_COLUMNS, Row, cmp_rows, cmp_values};
pub use text::{MAX_TEXT, Text, TextRefused};
pub use value::{ColType, Value};
