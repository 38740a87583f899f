//! A text that is played before a watcher, and what is told of it.
#![tactic(auto)]

pub mod playing;
pub mod refusal;
pub mod ticks;

pub use playing::{Piece, PlayError, Progress, Watcher, play};
pub use refusal::{Reason, Refused};
pub use ticks::write_ticks;
