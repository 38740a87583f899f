// Units and controllers lent by `&mut`: each entry calls its step by value, writes back what that hands out, and answers its word.
// The nine bodies are written out, and not one function over the step, since each is walked by hand.
#![tactic(auto)]

pub mod controller_entry;
pub mod unit_entry;
