//! The printed text of a script.
#![tactic(auto)]

mod printed;
mod printed_tokens;

pub use printed::print;
