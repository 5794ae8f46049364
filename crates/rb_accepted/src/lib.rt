//! That a program which is spelled, and keeps the rules of names, has nothing that is not built. Nothing here runs: the definition stands in
//! `specs/`, and the function is a law, which is its contract.
#![tactic(auto)]

pub mod laws;
