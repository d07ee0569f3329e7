//! Cutting a script into its blocks.
#![tactic(auto)]

mod build;
mod cut;

pub use cut::blocks;
