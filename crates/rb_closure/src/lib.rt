//! What a thread of the reference machine can name: what it made, and what it was told. Nothing here runs: the definitions stand in
//! `specs/`, and each function is a law, which is its contract.
#![tactic(auto)]

pub mod laws;
