//! Blocks: what a script is cut into at its branches, and the walk over them.
#![tactic(auto)]

mod block;
pub mod laws;

pub use block::{Block, Cfg, Step};
