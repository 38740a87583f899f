// The controller: what it has heard of each train, and what it says of it and grants by it.
#![tactic(auto)]

pub mod controller;
pub mod laws;

pub use controller::Controller;
pub use laws::controller_laws;
