//! Writes that are put in any order, and the files that they publish.
#![tactic(auto)]

mod staged;

pub use staged::Staged;
