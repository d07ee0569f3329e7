//! The types of expressions, and of what operators give.
#![tactic(auto)]

mod exprs;
mod results;

pub use exprs::{ExprType, type_of, type_of_value};
pub use results::result_type;
