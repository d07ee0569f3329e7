//! The evaluation of expressions.
#![tactic(auto)]

pub mod laws;
mod values;

pub use values::{EvalFault, eval};
