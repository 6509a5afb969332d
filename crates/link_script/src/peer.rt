//! The scripts of peers, as a board file writes them.
use link_trait::Addr;
use std::marker::Model;

/// What a peer is.
#[derive(Clone, Copy, Debug, PartialEq, Eq)]
pub enum PeerKind {
    /// It connects to a port of the chip.
    Client,
    /// It waits at its address for the chip to connect.
    Server,
    /// It exchanges datagrams with a port of the chip.
    Udp,
}

/// What a server answers to the one connection that it meets.
#[derive(Clone, Copy, Debug, PartialEq, Eq)]
pub enum Connects {
    /// It takes it.
    Fine,
    /// It refuses.
    Refused,
    /// It never answers.
    Timeout,
}

/// Bytes that a peer says at once. Contracts see the list of its bytes, and `after`.
#[derive(Debug, Drop)]
pub struct Chunk {
    /// They can be read once so many bytes were given to the peer.
    pub after: u32,
    /// The bytes.
    pub bytes: Vec<u8>,
}

impl Model for Chunk {
    ghost use Rattle.link_script.specs.Scripts.{Said};

    ghost Value = { Said };

    ghost view = { λ chunk. record { after = chunk.after; bytes = chunk.bytes.items } };
}

/// The script of a peer. Contracts see its lists.
#[derive(Debug, Drop)]
pub struct Peer {
    /// What it is.
    pub kind: PeerKind,
    /// Its address.
    pub addr: Addr,
    /// The port of the chip that a client connects to or a datagram peer talks to; of a server it has no meaning.
    pub chip: u16,
    /// What a server answers to a connection; of other peers it has no meaning.
    pub connect: Connects,
    /// How many bytes it takes at most at each write, 0 for none now; a datagram is taken whole. After the end of the list it
    /// takes all.
    pub takes: Vec<u32>,
    /// How many bytes it takes in all.
    pub room: u32,
    /// What it says, in order.
    pub say: Vec<Chunk>,
    /// It ends once it has said all and was given so many bytes; `None` where it never ends.
    pub end: Option<u32>,
    /// Which of its calls fails, from 1; 0 for none.
    pub fail: u32,
    /// How many times it answers NotYet before it makes its connection, before each chunk, and before it ends.
    pub lag: u16,
}

impl Model for Peer {
    ghost use Rattle.link_script.specs.Scripts.{Script};

    ghost Value = { Script };

    ghost view = { λ peer. record { kind = peer.kind; addr = peer.addr; chip = peer.chip; connect = peer.connect; takes = peer.takes.items; room = peer.room; say = peer.say.items; end = peer.end; fail = peer.fail; lag = peer.lag } };
}
