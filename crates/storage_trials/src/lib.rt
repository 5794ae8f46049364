//! Tests of the storage crates: of what no clause of theirs says. They stand apart, since a crate with tests is proved twice.
#![tactic(auto)]

#[cfg(test)]
mod arrays;
#[cfg(test)]
mod heap;
#[cfg(test)]
mod pairs;
#[cfg(test)]
mod shapes;
