// The ends of the radio: what units and controllers make of bytes that come, and the bytes that they send.
#![tactic(auto)]

pub mod controller_end;
pub mod laws;
mod sending;
pub mod unit_end;

pub use controller_end::{grant, granted, hear, hear_in_place, tell, told};
pub use laws::radio_laws;
pub use unit_end::{report, take};
