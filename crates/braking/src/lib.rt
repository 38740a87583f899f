// The lowest layer: limits, refusals, brakes and the braking distance.
#![tactic(auto)]

pub mod brakes;
pub mod laws;
pub mod limits;
pub mod refusal;

pub use brakes::Brakes;
pub use laws::distance_laws;
pub use refusal::Refusal;
