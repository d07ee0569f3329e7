//! Expressions over a row and captured scalars. What their types and their values are stands here as definitions.
#![tactic(auto)]

mod expr;

pub use expr::{BinOp, Call, Expr};
