//! Plans: operators in blocks and the edges between them. Which plans are valid, their text, and how long a run may take.
#![tactic(auto)]

mod bounds;
mod index;
mod plan;
mod print;
mod report;
mod settings;

pub use bounds::bound;
pub use plan::{Edge, MAX_EDGES, MAX_OPS, MAX_PLAN_BLOCKS, Plan, PlanBlock, PlanOp};
pub use print::print_plan;
pub use report::{Outcome, Report};
pub use settings::Settings;
