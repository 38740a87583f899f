// Tests of what comes before the line, from the braking distance to the entries, apart so that the crates that they try are
// not proved twice. What a scenario file can say is tried by crates/bench/data.
#![tactic(auto)]

#[cfg(test)]
mod distances;
#[cfg(test)]
mod ends;
#[cfg(test)]
mod lent;
#[cfg(test)]
mod messages;
#[cfg(test)]
mod states;
#[cfg(test)]
mod units;
#[cfg(test)]
mod vectors;
