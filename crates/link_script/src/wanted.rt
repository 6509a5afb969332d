//! Whom a scripted peer waits for.

use link_trait::Addr;

/// Which peers a connection may meet.
#[derive(Clone, Copy, Debug, PartialEq, Eq)]
pub enum Wanted {
    /// A server at this address.
    ServerAt(Addr),
    /// A client of this port of the chip.
    ClientOf(u16),
    /// A datagram peer of this port of the chip.
    UdpOf(u16),
}
