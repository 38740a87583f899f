//! What a command line asks of the program.
#![tactic(auto)]

pub mod asked_days;
pub mod request;

pub use asked_days::{DaysError, RandomDays, Setting, read_days};
pub use request::{ArgumentError, Arguments, Request, read_arguments};
