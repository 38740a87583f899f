// What a line is, what can happen on it, and what is promised of it: the definitions are in specs/, and little
// here runs.
#![tactic(auto)]

pub mod event;
pub mod laws;

pub use event::Event;
pub use laws::safety_laws;
