// A static library for programs in C and Rust: messages read from bytes and written as bytes, in plain numbers.
#![tactic(auto)]

mod reading;
mod writing;

// The number of each kind, as wide as all numbers that cross.
const REPORT: u64 = message::format::REPORT as u64;

const GRANT: u64 = message::format::GRANT as u64;
