//! Views of the path, as far as it is known.
#![tactic(auto)]

mod decided;
mod places;
mod view;

pub use view::View;
