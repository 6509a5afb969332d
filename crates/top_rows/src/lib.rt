//! Worked rows of the top calls, as tests: whole commands over files, sinks, links and waits in memory that fail where a row says
//! so, and a live run over sockets of the system. Nothing stands on it.
#![tactic(auto)]

#[cfg(test)]
mod commands;
#[cfg(test)]
mod sockets;
