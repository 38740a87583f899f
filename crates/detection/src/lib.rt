// That the check of a message finds one to seven changed bits: a theorem. Its proof is a long computation, so it has a crate of
// its own.
#![tactic(auto)]

pub mod laws;

pub use laws::detection_laws;
