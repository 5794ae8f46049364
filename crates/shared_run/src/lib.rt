//! The run of the threads of a shared store: the entries of all threads in their one order, with the store that their plain steps lead to, and
//! what the view of a pass says of it. One entry more, one refusal more, a pass that is split and one that is joined keep both. Nothing here
//! runs; both shared stores stand on it.
#![tactic(auto)]
