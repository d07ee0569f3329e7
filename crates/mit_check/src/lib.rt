//! The check of scripts: which are accepted, with the types of their variables, and why others are not.
#![tactic(auto)]

mod blocks;
mod faults;
mod operators;
mod tables;
mod trail;

pub use blocks::check;
pub use faults::CheckStop;
