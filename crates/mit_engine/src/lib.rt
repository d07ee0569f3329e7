//! The thin job, which reads, unites and writes bags, and the schedule of a job.
#![tactic(auto)]

mod channel;
mod edges;
mod job;
mod operators;
mod polls;
mod schedule;
mod thin;

pub use schedule::{Pick, Schedule, Seeded};
pub use thin::{Done, MAX_STATEMENTS, Thin, ThinStep, run_thin};
