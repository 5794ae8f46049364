//! Tests of what threads share: of what no clause of `publish_barrier`, `thing_store` and `turn_store` says. They stand apart, since a crate with
//! tests is proved twice.
#![tactic(auto)]

#[cfg(test)]
mod graphs;
#[cfg(test)]
mod things;
#[cfg(test)]
mod turns;
