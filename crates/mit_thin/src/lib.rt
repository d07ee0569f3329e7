//! Scripts that run as a thin job: lists of reads of integers, unions and writes.
#![tactic(auto)]

pub mod laws;
mod thin;

pub use thin::thin_of;
