//! What each kind of entry of a history makes of the two directions of a socket, and of the counts over all its lives: laws of
//! the definitions, each the contract of an empty function.
//!
//! `Sending` and `Receiving` are the two directions as records whose steps name no past; `sending` and `receiving` are these
//! records after a past. The laws say that an entry makes of them exactly the step of its kind.
#![tactic(auto)]

pub mod counts;
pub mod grows;
pub mod laws;
