// The line that runs: real units and real controllers, joined by a radio that keeps all that was ever sent, as
// bytes.
#![tactic(auto)]

pub mod gaps;
mod initial;
pub mod line;
pub mod new_error;
mod parts;
pub mod seen;
pub mod step_error;

pub use gaps::Gaps;
pub use line::{Line, Run};
pub use new_error::NewError;
pub use seen::Seen;
pub use step_error::StepError;
