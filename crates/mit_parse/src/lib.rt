//! The parser of scripts: from a text to its tree, or to the place of the first refusal.
#![tactic(auto)]

mod ahead;
mod beside;
mod expr;
pub mod laws;
mod lists;
mod names;
mod operators;
mod right;
mod script;
mod stmts;
mod stop;
mod tokens;

pub use script::parse;
pub use stop::ParseStop;
