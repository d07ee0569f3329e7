//! Tests of the kernels in a kit.
#![tactic(auto)]

#[cfg(test)]
mod given;
#[cfg(test)]
mod joins;
#[cfg(test)]
mod refuser;
#[cfg(test)]
mod rows;
#[cfg(test)]
mod slots;
