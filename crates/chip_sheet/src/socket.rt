//! Statuses of a socket, and what an entry is for it.

use crate::event::{Addr, ConnId};

/// The status of a socket (W5500 datasheet, 4.2 Sn_SR). The temporary ones never show (this profile's own).
#[derive(Clone, Copy, Debug, PartialEq, Eq)]
pub enum Status {
    /// SOCK_CLOSED, 00.
    Closed,
    /// SOCK_INIT, 13: opened for TCP.
    Init,
    /// SOCK_LISTEN, 14: waits for a peer that connects.
    Listen,
    /// SOCK_SYNSENT, 15: waits for the peer that it connects to.
    SynSent,
    /// SOCK_ESTABLISHED, 17: connected.
    Established,
    /// SOCK_FIN_WAIT, 18: this side has ended first.
    FinWait,
    /// SOCK_CLOSE_WAIT, 1C: the peer has ended first.
    CloseWait,
    /// SOCK_LAST_ACK, 1D: the peer has ended, and this side after it.
    LastAck,
    /// SOCK_UDP, 22: opened for UDP.
    Udp,
}

/// What an entry of a history is for one socket.
#[derive(Clone, Copy, Debug, PartialEq, Eq)]
pub enum Cause {
    /// Nothing that concerns its life.
    Nothing,
    /// The chip is reset.
    Reset,
    /// The command OPEN while the mode register's protocol is TCP.
    OpenTcp,
    /// The command OPEN while the mode register's protocol is UDP.
    OpenUdp,
    /// The command LISTEN.
    Listen,
    /// The command CONNECT.
    Connect,
    /// The command DISCON.
    Disconnect,
    /// The command CLOSE.
    Close,
    /// The command SEND.
    Send,
    /// The command RECV.
    Receive,
    /// Its connection was made.
    Linked,
    /// A peer connected to it.
    Accepted,
    /// The peer refused.
    Refused,
    /// No peer answered.
    TimedOut,
    /// The link took so many bytes.
    Took(u32),
    /// Bytes came.
    Got,
    /// A datagram came, whose body has so many bytes.
    Datagram(u64),
    /// The peer sends no more.
    Ended,
    /// The link knows that nothing more is sent.
    Shut,
    /// The link failed.
    Failed,
    /// The link forgot a life that had closed.
    Dropped,
}

/// A bit of a socket's interrupt register (W5500 datasheet, 4.2 Sn_IR).
#[derive(Clone, Copy, Debug, PartialEq, Eq)]
pub enum Interrupt {
    /// CON, bit 0: a connection was made.
    Connected,
    /// DISCON, bit 1: the peer has ended.
    Disconnected,
    /// RECV, bit 2: bytes were put into the RX buffer, or remain after a RECV.
    Received,
    /// TIMEOUT, bit 3: no peer answered, or the link failed.
    TimedOut,
    /// SENDOK, bit 4: all bytes of a SEND were taken.
    SendOk,
}

/// The link call that is due at a place. Each socket has an outgoing place and an incoming one.
#[derive(Clone, Copy, Debug, PartialEq, Eq)]
pub enum Due {
    /// None.
    Nothing,
    /// A life that has closed is to be forgotten.
    Drop(ConnId),
    /// A connection is to be made to the address kept at CONNECT.
    Connect(ConnId, Addr),
    /// Bytes in flight are to be written.
    Write(ConnId),
    /// The datagram in flight is to be sent, from the port kept at OPEN to the address kept at SEND.
    SendTo(ConnId, u16, Addr),
    /// The outgoing direction is to be ended.
    Shut(ConnId),
    /// A peer is to be accepted on the port kept at LISTEN.
    Accept(ConnId, u16),
    /// Bytes are to be read into the free part of the RX buffer.
    Read(ConnId),
    /// Bytes are to be read, and thrown away.
    ReadAway(ConnId),
    /// A datagram is to be received on the port kept at OPEN.
    RecvFrom(ConnId, u16),
}
