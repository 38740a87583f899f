// Messages on the radio: what they say, and the 12 bytes of each.
#![tactic(auto)]

pub mod format;
pub mod laws;
pub mod message;
pub mod reading;
pub mod stream;
pub mod writing;

pub use laws::message_laws;
pub use message::Message;
pub use reading::read;
pub use stream::{Next, next_message};
