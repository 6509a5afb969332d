//! The shared state, and its steps.
ghost use Rattle.std.specs.Prelude.{◌≡◌, ◌<◌, ◌≤◌, ◌+◌, ◌∷◌, [], ℕ, None, length, OnOk, OnErr};
ghost use Rattle.board_bus.specs.declared.event.BusEvent.{BusEvent};
ghost use Rattle.chip_sheet.specs.declared.event.Entry.TheVariants.{Rest};
ghost use Rattle.chip_sheet.specs.Streams.{Starts};
ghost use Rattle.chip_sheet.specs.Legal.{Legal};
ghost use Rattle.chip_core.specs.Chip.{Stands, stop_kept, starts_of};
ghost use Rattle.chip_hist.specs.declared.limits.TheConstants.{MOST_EVENTS, MARGIN};
ghost use Rattle.chip_hist.specs.Log.{IsLight};
ghost use Rattle.link_trait.specs.Shown.{IsFresh};

use chip_core::{Chip, laws};
use chip_hist::History;
use chip_sheet::event::{BusAnswer, BusEvent, Event};
use chip_sheet::stop::ChipStop;
use link_trait::links::Links;
use std::alloc::AllocError;
use std::marker::Model;

/// Why a step was refused. Nothing has then changed but the stop that is kept.
#[derive(Clone, Copy, Debug, PartialEq, Eq)]
pub enum StepEnd {
    /// The board stopped, now or before.
    Stopped(ChipStop),
    /// The history has reached its limit.
    TraceFull,
    /// There was no memory for one more event.
    NoMemory,
}

/// What a link step did, at a place of 0 to 15: place 2n is the outgoing one of socket n, and 2n + 1 its incoming one.
#[derive(Clone, Copy, Debug, PartialEq, Eq)]
pub enum LinkDid {
    /// The call that was due there was made, and its answer stands in the history.
    Did(u8),
    /// The call was made, and nothing happened yet.
    NotYet(u8),
    /// The call was made, and failed.
    Fault(u8),
    /// Nothing was due.
    Idle,
}

/// How many bytes a link call reads at most at once.
pub const MOST_READ: usize = 1472;

/// A chip, what happened to it, and the links that it asks.
#[derive(Drop)]
pub struct Shared<L: Links> {
    pub(crate) chip: Chip,
    pub(crate) history: History,
    pub(crate) links: L,
    /// Where bytes are read that are thrown away, and datagrams before it is known whether they fit.
    pub(crate) scratch: [u8; 1472],
    pub(crate) calls: u64,
}

impl<L: Links> Model for Shared<L> {
    ghost use Rattle.chip_shared.specs.State.{State};
    ghost use Rattle.chip_shared.specs.Sound.{Sound, state_of};

    ghost Value = { State L };

    ghost view = { λ s. state_of s.chip s.history s.links s.calls };

    ghost invariant = { λ s. Sound L.shown s.chip s.history s.links s.calls };
}

impl<L: Links> Shared<L> {
    ghost use Rattle.chip_shared.specs.State.{State, Keeps};
    ghost use Rattle.chip_shared.specs.Asking.{Asks, IsOpen, Fits, Goes};
    ghost use Rattle.chip_shared.specs.Calling.{Steps};
    ghost use Rattle.chip_shared.specs.Tied.{Tied, Ready};

    /// A chip after power-on, an empty history, and links on which no call was made.
    pub fn new(chip: Chip, history: History, links: L) -> Shared<L>
        requires chip { (starts : Starts) × Stands starts chip [] }
        requires unstopped { stop_kept chip ≡ None }
        requires history { history.past ≡ [] }
        requires links { IsFresh (L.shown links) }
        ensures { result ≡ record { starts = starts_of chip; log = history; stopped = None; links = links; calls = 0 } }
    {
        laws::starts_are();
        Shared {
            chip,
            history,
            links,
            scratch: [0; MOST_READ],
            calls: 0,
        }
    }

    /// The stop that was answered, if one was.
    pub fn stopped(&self) -> Option<ChipStop>
        ensures { result ≡ self.now.stopped }
    {
        self.chip.stopped()
    }

    /// How many link calls were made: never more than the history has entries.
    pub fn calls(&self) -> u64
        ensures value { result ≡ self.now.calls }
        ensures most { self.now.calls ≤ length self.now.log.past }
    {
        self.calls
    }

    /// Makes room for so many more events and bytes of data.
    ///
    /// # Errors
    ///
    /// `AllocError`, which comes only where the room is not there already.
    pub fn reserve(&mut self, events: u64, bytes: u64) -> Result<(), AllocError>
        ensures events { OnOk result (events ≤ self.new.log.spare_events) }
        ensures bytes { OnOk result (bytes ≤ self.new.log.spare_bytes) }
        ensures keeps { Keeps self.old self.new }
        ensures stopped { self.new.stopped ≡ self.old.stopped }
    {
        self.history.reserve(events, bytes)
    }

    /// Takes one event of the bus, and answers what the datasheet says for it after all that happened so far.
    ///
    /// # Errors
    ///
    /// `Stopped` with the stop of the event, or the one that was kept; `TraceFull` where the history has reached its limit;
    /// `NoMemory`, which may come where there is no room for an event.
    pub fn bus_step(&mut self, e: BusEvent) -> Result<BusAnswer, StepEnd>
        ensures asks { Asks self.old e result self.new }
        ensures sends { (n : ℕ) → IsOpen self.old → 0 < self.old.log.spare_events → Fits self.old e n → Goes self.old n result self.new }
    {
        laws::short_is_few();
        laws::starts_are();
        if let Err(end) = self.ready(1, 0) {
            return Err(end);
        }
        match self.chip.bus(e) {
            Ok(a) => {
                self.history.push(Event::Bus(e, a));
                Ok(a)
            }
            Err(stop) => Err(StepEnd::Stopped(stop)),
        }
    }

    /// Adds a turn in which nothing happened. It takes no room.
    pub fn rest(&mut self)
        requires room { 0 < self.old.log.spare_events }
        requires light { IsLight self.old.log }
        requires short { length self.old.log.past ≤ MOST_EVENTS + MARGIN }
        ensures { self.new ≡ record self.old { log = record self.old.log { past = Rest ∷ self.old.log.past } } }
    {
        laws::rest_stands();
        self.history.push(Event::Rest);
    }

    /// What always holds: the history is legal, and the links agree with it.
    pub fn keeps(&self)
        ensures legal { Legal self.now.starts self.now.log.past }
        ensures tied { Tied self.now.starts self.now.log.past (L.shown self.now.links) }
        ensures ready { Ready self.now.log.past (L.shown self.now.links) }
    {
        let _calls = self.calls;
    }

    /// Gives the chip, its history and its links back.
    pub fn into_parts(self) -> (Chip, History, L)
        ensures stands { Stands self.starts result.0 self.log.past }
        ensures stopped { stop_kept result.0 ≡ self.stopped }
        ensures history { result.1 ≡ self.log }
        ensures links { result.2 ≡ self.links }
        ensures tied { Tied self.starts self.log.past (L.shown self.links) }
    {
        (self.chip, self.history, self.links)
    }
}
