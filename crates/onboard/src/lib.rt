// The onboard unit: the computer on a train, which lets the driver have a speed or brakes.
#![tactic(auto)]

pub mod drive;
pub mod initial_train;
pub mod laws;
pub mod train;
pub mod unit;
pub mod word;

pub use drive::may_drive;
pub use initial_train::InitialTrain;
pub use laws::unit_laws;
pub use train::Train;
pub use unit::{Grant, Onboard};
pub use word::Word;
