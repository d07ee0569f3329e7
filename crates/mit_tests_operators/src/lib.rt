//! Tests of what no command shows of operators: keys and where they lead, the numbers and copies of operators, types that no
//! script asks for, totals and answers row by row, and the printed text of trees without a type.
#![tactic(auto)]

#[cfg(test)]
mod given;
#[cfg(test)]
mod keys;
#[cfg(test)]
mod kinds;
#[cfg(test)]
mod printed;
#[cfg(test)]
mod rows;
