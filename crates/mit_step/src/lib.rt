//! The step-by-step interpreter: it runs a script statement by statement, over whole bags.
#![tactic(auto)]

mod count;
mod decisions;
mod evaluate;
mod loose;
mod run;
mod step;
mod store;
mod whole;

pub use step::{Stepped, step_run};
pub use whole::{WholeStop, whole_bag};
