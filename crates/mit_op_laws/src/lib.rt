//! Laws of what operators compute: over whole bags and cut into partitions. No code stands here.
#![tactic(auto)]

pub mod laws;
