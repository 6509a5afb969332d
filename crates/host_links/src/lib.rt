//! Links over sockets of the system, and a poller that waits for them.
//!
//! Ports are bound on 127.0.0.1. The links tell no bytes, and no clock is read. What the system does is no part of any contract;
//! how its answers are counted is ([`HostLinks`] meets the trait of links, [`MioPoller`] that of pollers).
#![tactic(auto)]

mod connections;
mod counting;
mod datagrams;
mod listening;
mod naming;
pub mod pair;
mod places;
mod sockets;

pub use pair::{HostFault, HostLinks, MioPoller, host_pair};
