//! What is counted of a socket over all of its lives.

/// The state of a socket, and its counts over all of its lives.
#[derive(Clone, Copy, Debug, PartialEq, Eq)]
pub struct Tally {
    /// What Sn_SR reads.
    pub status: u8,
    /// How many lives have begun.
    pub lives: u64,
    /// How many bytes were passed to SEND.
    pub sent: u128,
    /// How many bytes the link took.
    pub taken: u128,
    /// How many bytes were put into the RX buffer, the headers of datagrams among them.
    pub got: u128,
}
