//! The tokens of scripts: names, numbers, columns, texts, symbols and keywords.
#![tactic(auto)]

pub mod keyword;
pub mod laws;
mod lexer;
pub mod limits;
mod piece;
mod quoted;
pub mod symbol;
mod tables;
mod token;
mod write;

pub use lexer::tokens;
pub use tables::{keyword_bytes, symbol_bytes};
pub use token::{LexStop, Token, TokenKind};
pub use write::add_quoted;
