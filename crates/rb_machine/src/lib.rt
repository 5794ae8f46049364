//! The reference machine of one thread: what a script means, move by move. Nothing here runs: the definitions stand in `specs/`, and
//! each function is a law of the machine, which is its contract.
#![tactic(auto)]

pub mod laws;
