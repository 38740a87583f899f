// Tests of the line and of scenarios as text, apart so that the crates that they try are not proved twice. What a scenario
// file can say is tried by crates/bench/data.
#![tactic(auto)]

#[cfg(test)]
mod events;
#[cfg(test)]
mod lines;
#[cfg(test)]
mod setting;
#[cfg(test)]
mod texts;
#[cfg(test)]
mod written;
