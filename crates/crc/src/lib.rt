// The check of a message: the CRC-32 of IEEE 802.3.
#![tactic(auto)]

pub mod check;
mod later_tables;
pub mod laws;
mod table;

pub use check::crc32;
pub use laws::crc_laws;
