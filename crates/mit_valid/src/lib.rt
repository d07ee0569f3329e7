//! Whether a plan is valid.
#![tactic(auto)]

mod conditions;
mod inference;
mod inferring;
mod inputs;
mod jumps;
mod landing;
mod leaves;
mod links;
mod passing;
mod ranges;
mod reaching;
mod structure;
mod typing;

pub use conditions::validate;
