//! What is kept of an event: a cell of 32 bytes. Its data stand behind one another in one buffer for all events.
ghost use Rattle.std.specs.Prelude.{◌≡◌, ◌<◌, length};
ghost use Rattle.std.specs.List.{AllPairs};
ghost use Rattle.chip_sheet.specs.Past.{entry_of, link_entry};
ghost use Rattle.chip_hist.specs.Kept.{entry_kept, kept_at, kept_link, IsWithin};
ghost use Rattle.chip_hist.specs.Log.{entry_data, link_data};

use chip_sheet::event::{Addr, BusAnswer, BusEvent, Event, LinkWhat};
use std::mem::size_of;

// What a cell takes, which the weight of an event stands for.
const _: () = prove!(size_of::<Cell>() == 32);

/// An event without its data, in 24 bytes: one level, since each level of enums would take 8 bytes more. The first number of what
/// a link did is its socket; the last two are the places between which the data stand.
#[derive(Clone, Copy)]
pub enum Kept {
    /// An event of the host's bus, with the chip's answer.
    Bus(BusEvent, BusAnswer),
    /// The connection that CONNECT asked for was made.
    Linked(u8),
    /// A peer at this address connected to the port that listens.
    Accepted(u8, Addr),
    /// The peer refused the connection.
    Refused(u8),
    /// No peer answered in time.
    TimedOut(u8),
    /// The link took so many bytes that were passed to SEND.
    Took(u8, u32),
    /// Bytes came from the peer.
    Got(u8, usize, usize),
    /// A datagram came from this address.
    Datagram(u8, Addr, usize, usize),
    /// The peer sends no more.
    Ended(u8),
    /// The link was told that nothing more is sent.
    Shut(u8),
    /// The link failed.
    Failed(u8),
    /// The link forgot a life that had closed.
    Dropped(u8),
}

/// An event that is no `Rest`, with its place in the history. The places between those of two cells are `Rest`s.
#[derive(Clone, Copy)]
pub struct Cell {
    /// How many events came before it.
    pub place: u64,
    /// The event.
    pub kept: Kept,
}

/// The bytes that what a link did came with.
pub fn data_of(what: LinkWhat<'_>) -> &[u8]
    ensures { result.now ≡ link_data (link_entry what.entry) }
{
    match what {
        LinkWhat::Got(bytes) | LinkWhat::Datagram(_, bytes) => bytes,
        _ => &[],
    }
}

/// How many bytes of data an event has.
pub fn data_len(event: Event<'_>) -> u64
    ensures { result ≡ length (entry_data (entry_of event.entry)) }
{
    match event {
        Event::Link(_, what) => data_of(what).len() as u64,
        _ => 0,
    }
}

/// What is kept of what a link did, whose data stand at these places.
pub fn link_kept(sn: u8, what: LinkWhat<'_>, from: usize, to: usize) -> Kept
    ensures { result ≡ kept_link sn (link_entry what.entry) from to }
{
    match what {
        LinkWhat::Linked => Kept::Linked(sn),
        LinkWhat::Accepted(peer) => Kept::Accepted(sn, peer),
        LinkWhat::Refused => Kept::Refused(sn),
        LinkWhat::TimedOut => Kept::TimedOut(sn),
        LinkWhat::Took(count) => Kept::Took(sn, count),
        LinkWhat::Got(_) => Kept::Got(sn, from, to),
        LinkWhat::Datagram(peer, _) => Kept::Datagram(sn, peer, from, to),
        LinkWhat::Ended => Kept::Ended(sn),
        LinkWhat::Shut => Kept::Shut(sn),
        LinkWhat::Failed => Kept::Failed(sn),
        LinkWhat::Dropped => Kept::Dropped(sn),
    }
}

/// The event of which this is kept, with its data lent out of these bytes.
pub fn event_of(bytes: &[u8], kept: Kept) -> Event<'_>
    requires { IsWithin (length bytes.now) kept }
    ensures { entry_of result ≡ entry_kept bytes.now kept }
{
    match kept {
        Kept::Bus(event, answer) => Event::Bus(event, answer),
        Kept::Linked(sn) => Event::Link(sn, LinkWhat::Linked),
        Kept::Accepted(sn, peer) => Event::Link(sn, LinkWhat::Accepted(peer)),
        Kept::Refused(sn) => Event::Link(sn, LinkWhat::Refused),
        Kept::TimedOut(sn) => Event::Link(sn, LinkWhat::TimedOut),
        Kept::Took(sn, count) => Event::Link(sn, LinkWhat::Took(count)),
        Kept::Got(sn, from, to) => Event::Link(sn, LinkWhat::Got(&bytes[from..to])),
        Kept::Datagram(sn, peer, from, to) => {
            Event::Link(sn, LinkWhat::Datagram(peer, &bytes[from..to]))
        }
        Kept::Ended(sn) => Event::Link(sn, LinkWhat::Ended),
        Kept::Shut(sn) => Event::Link(sn, LinkWhat::Shut),
        Kept::Failed(sn) => Event::Link(sn, LinkWhat::Failed),
        Kept::Dropped(sn) => Event::Link(sn, LinkWhat::Dropped),
    }
}

/// What is kept of the event at a place; `None` where it is a `Rest`.
pub fn find(cells: &[Cell], place: u64) -> Option<Kept>
    requires { AllPairs (λ a b. a.place < b.place) cells.now }
    ensures { result ≡ kept_at cells.now place }
{
    match cells.binary_search_by_key(&place, |cell| cell.place) {
        Ok(at) => Some(cells[at].kept),
        Err(_) => None,
    }
}
