//! The tokens of a script.

ghost use Rattle.std.specs.Prelude.{◌≡◌, ◌<◌};

use chip_sheet::event::{Addr, BusEvent, LinkWhat};

/// What a link token says the link below a socket did. It owns its bytes.
#[derive(Debug, Drop)]
pub enum LinkToken {
    /// `linked`: the connection that CONNECT asked for was made.
    Linked,
    /// `accepted:ADDR:PORT`: a peer at this address connected.
    Accepted(Addr),
    /// `refused`: the peer refused the connection.
    Refused,
    /// `timedout`: no peer answered in time.
    TimedOut,
    /// `took:K`: the link took so many bytes.
    Took(u32),
    /// `got:HEX`: these bytes came from the peer.
    Got(Vec<u8>),
    /// `datagram:ADDR:PORT:HEX`: a datagram with this body came from this address.
    Datagram(Addr, Vec<u8>),
    /// `ended`: the peer sends no more.
    Ended,
    /// `shut`: the link was told that nothing more is sent.
    Shut,
    /// `failed`: the link failed.
    Failed,
    /// `dropped`: the link forgot a life that had closed.
    Dropped,
}

/// A link token: what the link below a socket did.
#[derive(Debug, Drop)]
pub struct LinkStep {
    /// The socket, 0 to 7.
    pub socket: u8,
    /// What happened.
    pub what: LinkToken,
    ghost in_range: { socket < 8 },
}

/// A token of a script.
#[derive(Debug, Drop)]
pub enum Token {
    /// `L`, `H`, a byte or `?`: an event of the bus.
    Bus(BusEvent),
    /// `@n:..`: what the link below a socket did.
    Link(LinkStep),
}

impl LinkToken {
    ghost use Rattle.chip_sheet.specs.Past.{link_entry};
    ghost use Rattle.board_gen.specs.Views.{entry_of};

    /// What the token says happened, with its bytes lent.
    pub fn what(&self) -> LinkWhat<'_>
        ensures { link_entry result ≡ entry_of self.now }
    {
        match self {
            LinkToken::Linked => LinkWhat::Linked,
            LinkToken::Accepted(from) => LinkWhat::Accepted(*from),
            LinkToken::Refused => LinkWhat::Refused,
            LinkToken::TimedOut => LinkWhat::TimedOut,
            LinkToken::Took(count) => LinkWhat::Took(*count),
            LinkToken::Got(bytes) => LinkWhat::Got(bytes),
            LinkToken::Datagram(from, bytes) => LinkWhat::Datagram(*from, bytes),
            LinkToken::Ended => LinkWhat::Ended,
            LinkToken::Shut => LinkWhat::Shut,
            LinkToken::Failed => LinkWhat::Failed,
            LinkToken::Dropped => LinkWhat::Dropped,
        }
    }
}
