//! Links in memory: peers that act by a script, and tell every byte.
//!
//! The definitions stand in `specs/`: `Acting` says what one peer answers and how far it then is, `Play` which peer a call meets
//! and what the links show.
#![tactic(auto)]

pub mod actor;
mod acts;
pub mod peer;
pub mod script_links;
pub mod wanted;

pub use peer::{Chunk, Connects, Peer, PeerKind};
pub use script_links::{PeerEnd, ScriptLinks};
