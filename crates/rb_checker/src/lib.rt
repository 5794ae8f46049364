//! The rules of names: what a script may call, make, leave, define and capture, and how many variables and classes it may have.
//! `check` looks at all of them, and answers the first that a program breaks, as `specs/Check.antt` has them.
//!
//! A text is a list of events, which is gathered once and gone through by each rule. A use of a local costs a look-up for each block
//! and thread round it, and in a thread one more for each thing that stands round that.
#![tactic(auto)]

mod bodies;
mod crowds;
mod event;
mod fault;
mod first;
mod found;
mod gather;
mod locals;
mod naming;
mod params;
mod repeated;
mod rules;
mod sets;
mod settling;
mod texts;
mod threads;
mod unsettled;
mod walking;
mod whole;

pub use event::{Around, Event, Sight};
pub use fault::CheckFault;
pub use locals::{Local, Usage};
pub use naming::{ScopeNames, names_of_scopes};
pub use threads::{ThreadNames, names_of_threads};
pub use whole::{CheckError, check};
