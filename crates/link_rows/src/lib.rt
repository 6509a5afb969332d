//! Worked rows of links to sockets of the system, on 127.0.0.1. Nothing stands on it.
#![tactic(auto)]

#[cfg(test)]
mod sockets;
