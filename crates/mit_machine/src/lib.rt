//! The machine that runs a plan, as a state of counters: what can be done next, that something always can, and how it ends.
#![tactic(auto)]

pub mod laws;
