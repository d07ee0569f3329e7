//! Tests of plans and of the plans of scripts.
#![tactic(auto)]

#[cfg(test)]
mod applied;
#[cfg(test)]
mod endings;
#[cfg(test)]
mod meant;
#[cfg(test)]
mod plans;
#[cfg(test)]
mod scripts;
#[cfg(test)]
mod valid;
#[cfg(test)]
mod whole;
#[cfg(test)]
mod worked;
#[cfg(test)]
mod worth;
