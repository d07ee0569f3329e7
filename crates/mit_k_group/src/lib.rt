//! The kernels that group rows: reductions, distinct rows, the only row, counts and sums. Each keeps its answer while it is fed.
#![tactic(auto)]

mod entry;
mod history;
mod kernel;
mod only;
mod running;

pub use kernel::GroupKernel;
