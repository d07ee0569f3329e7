//! Tests of what no command shows of the language: the tokens of a script, trees that no check accepts, and blocks.
#![tactic(auto)]

#[cfg(test)]
mod cfg;
#[cfg(test)]
mod lex;
#[cfg(test)]
mod parse;
