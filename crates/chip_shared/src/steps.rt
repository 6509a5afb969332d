//! What a step needs before it asks anything, and the first call that is due.
ghost use Rattle.std.specs.Prelude.{◌≡◌, ◌<◌, ◌≤◌, ◌⊎◌, length, OnOk, IfErr};
ghost use Rattle.chip_hist.specs.declared.limits.TheConstants.{MOST_EVENTS};
ghost use Rattle.chip_shared.specs.Calling.{is_due};

use crate::shared::{LinkDid, MOST_READ, Shared, StepEnd};
use chip_sheet::socket::Due;
use link_trait::links::Links;

/// Whether a call is due.
pub(crate) fn is_due(due: &Due) -> bool
    ensures { result ≡ is_due due.now }
{
    !matches!(due, Due::Nothing)
}

impl<L: Links> Shared<L> {
    ghost use Rattle.chip_sheet.specs.LinkCalls.{due_at};
    ghost use Rattle.chip_shared.specs.State.{Keeps};
    ghost use Rattle.chip_shared.specs.Asking.{IsOpen, Refused};
    ghost use Rattle.chip_shared.specs.Calling.{Called, Steps};
    ghost use Rattle.chip_shared.specs.Causes.{Does};
    ghost use Rattle.chip_shared.specs.Making.{Begins};

    /// Makes sure that a step may be made which adds so many events and bytes of data.
    ///
    /// # Errors
    ///
    /// `Stopped` where a stop is kept; `TraceFull` where the history has reached its limit; `NoMemory`, which may come where the
    /// room is not there.
    pub(crate) fn ready(&mut self, events: u64, bytes: u64) -> Result<(), StepEnd>
        ensures keeps { Keeps self.old self.new }
        ensures stopped { self.new.stopped ≡ self.old.stopped }
        ensures before { OnOk result (IsOpen self.old) }
        ensures short { OnOk result (length self.new.log.past < MOST_EVENTS) }
        ensures events { OnOk result (events ≤ self.new.log.spare_events) }
        ensures bytes { OnOk result (bytes ≤ self.new.log.spare_bytes) }
        ensures refused { IfErr result (λ end_. Refused self.old (λ e b. (e < events) ⊎ (b < bytes)) end_) }
    {
        if let Some(stop) = self.chip.stopped() {
            return Err(StepEnd::Stopped(stop));
        }
        if self.history.is_full() {
            return Err(StepEnd::TraceFull);
        }
        match self.history.reserve(events, bytes) {
            Ok(()) => Ok(()),
            Err(_) => Err(StepEnd::NoMemory),
        }
    }

    /// The call that is due at a place, 0 to 15.
    pub(crate) fn due(&self, place: u8) -> Due
        requires { place < 16 }
        ensures { result ≡ due_at self.now.starts self.now.log.past place }
    {
        self.chip.due(place)
    }

    /// Makes the call that is due at a place.
    fn call(&mut self, place: u8, due: &Due) -> LinkDid
        requires { Begins self.old place due.now }
        ensures { Called (Does L.effect L.shown) self.old place result self.new }
    {
        match *due {
            Due::Read(c) => self.read_step(place, c),
            _ => self.make_step(place, due),
        }
    }

    /// Makes the first link call that is due at the places from this one on, 0 to 15, on what the chip lends; its answer stands
    /// in the history. Where nothing is due, a turn in which nothing happened stands there.
    ///
    /// # Errors
    ///
    /// `Stopped` where a stop is kept; `TraceFull` where the history has reached its limit; `NoMemory`, which may come where
    /// there is no room for an event and 1,472 bytes.
    pub fn link_step(&mut self, from: u8) -> Result<LinkDid, StepEnd>
        requires { from < 16 }
        ensures step { Steps (Does L.effect L.shown) self.old from result self.new }
    {
        if let Err(end) = self.ready(1, MOST_READ as u64) {
            return Err(end);
        }
        for place in from..16 {
            let due = self.due(place);
            if is_due(&due) {
                return Ok(self.call(place, &due));
            }
        }
        self.rest();
        Ok(LinkDid::Idle)
    }
}
