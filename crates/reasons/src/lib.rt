//! Why an event cannot be next on a line, and why no day can begin with a train: what is wrong, and what would be right.
#![tactic(auto)]

pub mod impossible;
pub mod misplaced;

pub use impossible::{WhyNot, fastest, why_not};
pub use misplaced::{Misplaced, misplaced_by};
