//! A history: the list of what happened, which only grows.
ghost use Rattle.std.specs.Prelude.{◌≡◌, ◌+◌, ◌*◌, ◌^◌, ◌<◌, ◌≤◌, [], ◌∷◌, length, reverse, OnOk, IsOk, slice_get, option_map, vec_len, vec_capacity, ◌++◌, false};
ghost use Rattle.chip_sheet.specs.Past.{entry_of};
ghost use Rattle.chip_sheet.specs.declared.event.Entry.TheVariants.{Rest};
ghost use Rattle.chip_hist.specs.declared.limits.TheConstants.{HIGHEST_LIMIT, MOST_EVENTS, MARGIN, BYTES_A_UNIT};
ghost use Rattle.chip_hist.specs.Log.{begun, entry_data, is_full, weight_of, IsLight};

use crate::kept::{Cell, Kept, data_of, event_of, find, link_kept};
use crate::limits::{BYTES_A_UNIT, MOST_EVENTS};
use chip_sheet::event::Event;
use std::alloc::{AllocError, Global};
use std::marker::Model;

/// Adds bytes for which there is room (apart, so that `push` reads as one fact what is there after the `unwrap`).
#[inline]
fn append(bytes: &mut Vec<u8>, more: &[u8])
    requires { vec_len bytes.old + length more.now ≤ vec_capacity bytes.old }
    ensures items { bytes.new.items ≡ bytes.old.items ++ more.now }
    ensures len { vec_len bytes.new ≡ vec_len bytes.old + length more.now }
    ensures capacity { vec_capacity bytes.old ≤ vec_capacity bytes.new }
{
    bytes.extend_from_slice(more).unwrap();
}

/// How many units so many bytes of data weigh.
#[inline]
fn units(count: usize) -> u64
    ensures { result ≡ begun count }
{
    (count as u64).div_ceil(BYTES_A_UNIT)
}

/// What happened on a chip's bus and links, in order.
///
/// Contracts see it as a record: `past` is what happened, the newest first; `spare_events` and `spare_bytes` are how many
/// events and bytes of data it takes without memory; `limit` is the weight that it is meant to hold. An event weighs 1, and 1
/// more for each 32 bytes of data that it begins; a `Rest` weighs nothing.
#[derive(Drop)]
pub struct History {
    /// The events that are no `Rest`s, the oldest first.
    cells: Vec<Cell>,
    /// Their data, one after another.
    bytes: Vec<u8>,
    /// How many events it has, `Rest`s too.
    len: u64,
    /// What they weigh.
    weight: u64,
    /// The weight that it is meant to hold.
    limit: u64,
}

impl Model for History {
    ghost use Rattle.std.specs.Prelude.{◌-◌, vec_len, vec_capacity};
    ghost use Rattle.chip_hist.specs.Log.{Log};
    ghost use Rattle.chip_hist.specs.Kept.{past_of, IsSound};

    ghost Value = { Log };

    ghost view = { λ h. record { past = past_of h.bytes.items h.cells.items h.len; spare_events = vec_capacity h.cells - vec_len h.cells; spare_bytes = vec_capacity h.bytes - vec_len h.bytes; limit = h.limit } };

    ghost invariant = { λ h. IsSound h.bytes.items h.cells.items h.len h.weight h.limit };
}

impl History {
    /// An empty history, which takes no memory. `limit` is in units of weight, 1 to
    /// [`HIGHEST_LIMIT`](crate::limits::HIGHEST_LIMIT).
    pub fn new(alloc: Global, limit: u64) -> History
        requires { (1 ≤ limit) × (limit ≤ HIGHEST_LIMIT) }
        ensures past { result.past ≡ [] }
        ensures limit { result.limit ≡ limit }
    {
        History {
            cells: Vec::new(alloc),
            bytes: Vec::new(alloc),
            len: 0,
            weight: 0,
            limit,
        }
    }

    /// Makes room for so many more events and bytes of data.
    ///
    /// # Errors
    ///
    /// Out of memory alone. What happened stands as before.
    pub fn reserve(&mut self, events: u64, bytes: u64) -> Result<(), AllocError>
        ensures events { OnOk result (events ≤ self.new.spare_events) }
        ensures bytes { OnOk result (bytes ≤ self.new.spare_bytes) }
        // It asks for memory only where the room is missing.
        ensures enough { (events ≤ self.old.spare_events) × (bytes ≤ self.old.spare_bytes) → IsOk result }
        ensures past { self.new.past ≡ self.old.past }
        ensures limit { self.new.limit ≡ self.old.limit }
        ensures no_fewer_events { self.old.spare_events ≤ self.new.spare_events }
        ensures no_fewer_bytes { self.old.spare_bytes ≤ self.new.spare_bytes }
    {
        self.cells.reserve(events as usize)?;
        self.bytes.reserve(bytes as usize)
    }

    /// How many events and how many bytes of data it takes without memory.
    pub fn spare(&self) -> (u64, u64)
        ensures events { result.0 ≡ self.now.spare_events }
        ensures bytes { result.1 ≡ self.now.spare_bytes }
    {
        (
            (self.cells.capacity() - self.cells.len()) as u64,
            (self.bytes.capacity() - self.bytes.len()) as u64,
        )
    }

    /// Adds an event, for which there is room. It takes no memory.
    pub fn push(&mut self, event: Event<'_>)
        requires room { 0 < self.old.spare_events }
        requires data_room { length (entry_data (entry_of event)) ≤ self.old.spare_bytes }
        requires light { IsLight self.old }
        requires short { length self.old.past ≤ MOST_EVENTS + MARGIN }
        ensures past { self.new.past ≡ entry_of event.entry ∷ self.old.past }
        ensures events { self.old.spare_events ≤ self.new.spare_events + 1 }
        ensures bytes { self.old.spare_bytes
            ≤ self.new.spare_bytes + BYTES_A_UNIT * begun (length (entry_data (entry_of event.entry))) }
        // A turn in which nothing happened takes no room.
        ensures idle { entry_of event.entry ≡ Rest → (self.new.spare_events ≡ self.old.spare_events)
            × (self.new.spare_bytes ≡ self.old.spare_bytes) }
        ensures limit { self.new.limit ≡ self.old.limit }
    {
        match event {
            Event::Bus(event, answer) => {
                self.cells.push_reserved(Cell {
                    place: self.len,
                    kept: Kept::Bus(event, answer),
                });
                self.weight += 1;
                self.len += 1;
            }
            Event::Link(sn, what) => {
                let place = self.len;
                let data = data_of(what);
                let from = self.bytes.len();
                append(&mut self.bytes, data);
                self.cells.push_reserved(Cell {
                    place,
                    kept: link_kept(sn, what, from, from + data.len()),
                });
                self.weight += 1 + units(data.len());
                self.len += 1;
            }
            Event::Rest => self.len += 1,
        }
    }

    /// How many events it has, below 2^60.
    pub fn len(&self) -> u64
        ensures value { result ≡ length self.now.past }
        ensures below { length self.now.past < 2 ^ 60 }
    {
        self.len
    }

    /// What its events weigh.
    pub fn weight(&self) -> u64
        ensures { result ≡ weight_of self.now.past }
    {
        self.weight
    }

    /// The weight that it is meant to hold, 1 to [`HIGHEST_LIMIT`](crate::limits::HIGHEST_LIMIT).
    pub fn limit(&self) -> u64
        ensures value { result ≡ self.now.limit }
        ensures range { (1 ≤ self.now.limit) × (self.now.limit ≤ HIGHEST_LIMIT) }
    {
        self.limit
    }

    /// Whether its weight has reached its limit, or it has [`MOST_EVENTS`] events.
    pub fn is_full(&self) -> bool
        ensures value { result ≡ is_full self.now }
        ensures room { result ≡ false → (weight_of self.now.past < self.now.limit)
            × (length self.now.past < MOST_EVENTS) }
    {
        self.limit <= self.weight || MOST_EVENTS <= self.len
    }

    /// The event at a place, the oldest at 0; `None` exactly past the last.
    pub fn get(&self, place: u64) -> Option<Event<'_>>
        ensures { option_map entry_of result ≡ slice_get (reverse self.now.past) place }
    {
        if self.len <= place {
            return None;
        }
        match find(&self.cells, place) {
            Some(kept) => Some(event_of(&self.bytes, kept)),
            None => Some(Event::Rest),
        }
    }
}
