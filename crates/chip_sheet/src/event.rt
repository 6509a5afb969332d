//! Events of a history: the bus, the links, and turns in which nothing happened.
pub use board_bus::{BusAnswer, BusEvent};
use std::collections::LinkedList;

/// An address of the internet protocol, version 4, and a port of it.
#[derive(Clone, Copy, Debug, PartialEq, Eq)]
pub struct Addr {
    /// The four bytes of the address, in the order in which they are written.
    pub ip: [u8; 4],
    /// The port, 0 to 65535.
    pub port: u16,
}

/// A connection: one life of a socket.
#[derive(Clone, Copy, Debug, PartialEq, Eq)]
pub struct ConnId {
    /// The socket, 0 to 7.
    pub sn: u8,
    /// Which of its lives, from 1.
    pub life: u64,
}

/// What the link below a socket did. The events are this profile's own: the chip's own network is a connection of the host.
#[derive(Clone, Copy, Debug, PartialEq, Eq)]
pub enum LinkWhat<'a> {
    /// The connection that CONNECT asked for was made.
    Linked,
    /// A peer at this address connected to the port that listens.
    Accepted(Addr),
    /// The peer refused the connection.
    Refused,
    /// No peer answered in time.
    TimedOut,
    /// The link took so many bytes that were passed to SEND, from 1 on.
    Took(u32),
    /// These bytes came from the peer, at least one.
    Got(&'a [u8]),
    /// A datagram with this body came from this address.
    Datagram(Addr, &'a [u8]),
    /// The peer sends no more.
    Ended,
    /// The link was told that nothing more is sent.
    Shut,
    /// The link failed.
    Failed,
    /// The link forgot a life that had closed.
    Dropped,
}

/// One event of a history.
#[derive(Clone, Copy, Debug, PartialEq, Eq)]
pub enum Event<'a> {
    /// An event of the host's bus, with the chip's answer.
    Bus(BusEvent, BusAnswer),
    /// What the link below a socket, 0 to 7, did.
    Link(u8, LinkWhat<'a>),
    /// A turn in which nothing happened.
    Rest,
}

/// What the link below a socket did, as contracts see it: with bytes of its own. No value of it is made.
pub enum LinkEntry {
    /// The connection that CONNECT asked for was made.
    Linked,
    /// A peer at this address connected to the port that listens.
    Accepted(Addr),
    /// The peer refused the connection.
    Refused,
    /// No peer answered in time.
    TimedOut,
    /// The link took so many bytes that were passed to SEND.
    Took(u32),
    /// These bytes came from the peer.
    Got(LinkedList<u8>),
    /// A datagram with this body came from this address.
    Datagram(Addr, LinkedList<u8>),
    /// The peer sends no more.
    Ended,
    /// The link was told that nothing more is sent.
    Shut,
    /// The link failed.
    Failed,
    /// The link forgot a life that had closed.
    Dropped,
}

/// One entry of a history, as contracts see it. No value of it is made: a struct may hold entries in a ghost value.
pub enum Entry {
    /// An event of the host's bus, with the chip's answer.
    Bus(BusEvent, BusAnswer),
    /// What the link below a socket, 0 to 7, did.
    Link(u8, LinkEntry),
    /// A turn in which nothing happened.
    Rest,
}
