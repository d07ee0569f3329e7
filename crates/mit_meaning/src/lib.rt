//! What the plan of a script means: the script.
#![tactic(auto)]

pub mod laws;
