//! What leaves the private store of a thread with the values that a call hands over, and the references to shared things that the thread
//! has noted.
#![tactic(auto)]

mod addressing;
mod gathering;
mod known;
mod laws;
mod moving;
mod placing;
mod sorts;

pub use addressing::{addressed, addressed_act, addressed_all};
pub use gathering::{gather, gather_act, gather_value};
pub use known::Known;
pub use laws::{laws_of_absence, laws_of_leaving};
pub use moving::commit;
