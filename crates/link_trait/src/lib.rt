//! The connections below the chip's sockets, as a trait: each call on them with its answer, and the routes that they take.
//!
//! Contracts see links by what they show ([`Links`]' ghost member `shown`, a record): counts, which connections are made, and, of
//! the connections that they tell, the bytes and the addresses. The definitions stand in `specs/`: one rule for all calls a file.
#![tactic(auto)]

pub mod links;
pub mod routes;

pub use chip_sheet::event::{Addr, ConnId};
pub use links::{Accepting, Linking, Links, Reading, Receiving, Sending, Shutting, Writing};
pub use routes::Routes;
