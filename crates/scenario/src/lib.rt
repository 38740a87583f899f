//! Scenarios as text: the beginning of a day and its events, read and written.
#![tactic(auto)]

pub mod entry;
pub mod fault;
pub mod head;
mod keyword;
pub mod laws;
pub mod lines;
mod plain_event;
pub mod reading;
pub mod scenario;
pub mod writing;

pub use entry::{Entry, HeadLine};
pub use fault::{Between, Fault, Part, explain};
pub use head::Head;
pub use laws::scenario_laws;
pub use lines::{Stop, read_events, read_head};
pub use reading::{read_event, read_head_line, read_line};
pub use scenario::{Scenario, read};
pub use writing::write;
