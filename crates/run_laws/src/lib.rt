//! What holds of the whole history of a run, by what each of its threads does. Nothing here runs: the definitions stand in `specs/`, and each
//! function is a law, which is its contract.
#![tactic(auto)]

pub mod laws;
