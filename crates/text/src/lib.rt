//! Texts: the lines that say something, their words, and numbers in decimal digits.
#![tactic(auto)]

pub mod lines;
pub mod parts;
pub mod plain;
pub mod reader;
pub mod words;

pub use lines::SaidLine;
pub use parts::{after, is_empty, next_number, number};
pub use reader::Reader;
pub use words::next_word;
