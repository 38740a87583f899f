//! Random days: how a day begins, and events that can be. A day follows from its seed.
#![tactic(auto)]

mod beginning;
mod chance;
pub mod day;
mod driver;
mod kinds;
mod next;

pub use day::{Day, Extent, random_day};
