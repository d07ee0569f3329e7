//! Laws of the grammar: tokens spell at most one script, which reading them from left to right gives. No code stands here.
#![tactic(auto)]

pub mod laws;
