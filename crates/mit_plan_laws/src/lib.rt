//! Laws of what a plan means without messages. No code stands here.
#![tactic(auto)]

pub mod laws;
