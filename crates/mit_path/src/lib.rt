//! The path of a run: which bag an operator takes at a place of it, and what becomes of a bag that an operator made, as definitions and
//! laws.
#![tactic(auto)]

mod fate;
pub mod laws;

pub use fate::Fate;
