//! The plan of a script: each variable is an operator's, and where two ways meet a phi takes one of two.
#![tactic(auto)]

mod block;
mod build;
mod changed;
mod defined;
pub mod laws;
mod number;
mod operators;
mod phis;
mod plan;
mod stop;
mod weave;

pub use plan::plan_of;
pub use stop::PlanStop;
