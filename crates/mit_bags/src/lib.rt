//! Bags of rows, and the laws of bags and of the order of rows.
#![tactic(auto)]

mod bag;
pub mod laws;

pub use bag::Bag;
