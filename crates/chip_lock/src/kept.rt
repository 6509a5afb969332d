//! The state that turns hand on, with the cause that ended them: what one turn makes of it.
ghost use Rattle.std.specs.Prelude.{◌≡◌, ◌<◌, ◌≤◌, ◌*◌, [], None, Some, IfOk, IfErr};
ghost use Rattle.chip_sheet.specs.Windows.{most_read};
ghost use Rattle.chip_lock.specs.declared.over.Over.{Over};
ghost use Rattle.chip_lock.specs.declared.over.Over.TheVariants.{NoMemory};
ghost use Rattle.chip_lock.specs.Overs.{IsGiven};
ghost use Rattle.chip_shared.specs.State.{Keeps};

use crate::over::{Over, over_by};
use chip_shared::shared::{LinkDid, MOST_READ, Shared};
use chip_sheet::event::{BusAnswer, BusEvent};
use link_trait::links::Links;
use std::alloc::Global;
use std::marker::Model;

/// The shared state, the first cause for which turns ended, how many passes have not ended, and the event that was asked last.
#[derive(Drop)]
struct Held<L: Links> {
    shared: Shared<L>,
    cause: Option<Over>,
    live: u64,
    last: BusEvent,
}

/// What a turn takes out of the table and puts back. It stands in a box, so that a turn moves one word.
#[derive(Drop)]
pub(crate) struct Kept<L: Links> {
    held: Box<Held<L>>,
}

impl<L: Links> Model for Kept<L> {
    ghost use Rattle.chip_lock.specs.Standing.{KeptState, IsKept};

    ghost Value = { KeptState L };

    ghost view = { λ k. record { state = k.held.value.shared; cause = k.held.value.cause; live = k.held.value.live; last = k.held.value.last } };

    ghost invariant = { λ k. IsKept k.held.value.shared k.held.value.cause k.held.value.live };
}

/// Makes room for the next turns of so many passes. Where there is no memory for it, that is a cause to end.
fn renew<L: Links>(shared: &mut Shared<L>, live: u64) -> Option<Over>
    requires { live ≤ 2 }
    ensures keeps { Keeps shared.old shared.new }
    ensures stopped { shared.new.stopped ≡ shared.old.stopped }
    ensures room { result ≡ None → 2 * live ≤ shared.new.log.spare_events }
    ensures data_room { result ≡ None → live * most_read ≤ shared.new.log.spare_bytes }
    ensures dry { (c : Over) → result ≡ Some c → c ≡ NoMemory }
{
    match shared.reserve(2 * live, live * MOST_READ as u64) {
        Ok(()) => None,
        Err(_) => Some(Over::NoMemory),
    }
}

impl<L: Links> Kept<L> {
    ghost use Rattle.chip_lock.specs.Standing.{Leaves};
    ghost use Rattle.chip_lock.specs.Turns.{TakesOne, BusTurn, LinkTurn, EndTurn, FindsWith, FindsNone, GivesNone};

    /// Before the first turn: neither pass has ended, and each has room for a turn and for its last entry.
    ///
    /// # Errors
    ///
    /// The state again, where memory for that room or for its box is missing.
    pub(crate) fn new(alloc: Global, mut shared: Shared<L>) -> Result<Kept<L>, Shared<L>>
        requires past { shared.log.past ≡ [] }
        requires unstopped { shared.stopped ≡ None }
        ensures ok { IfOk result (λ k. Keeps shared k.state) }
        ensures uncaused { IfOk result (λ k. k.cause ≡ None) }
        ensures live { IfOk result (λ k. k.live ≡ 2) }
        ensures still { IfOk result (λ k. k.state.stopped ≡ None) }
        ensures err { IfErr result (λ s. Keeps shared s) }
        ensures err_still { IfErr result (λ s. s.stopped ≡ None) }
    {
        if renew(&mut shared, 2).is_some() {
            return Err(shared);
        }
        let held = Held {
            shared,
            cause: None,
            live: 2,
            last: BusEvent::Look,
        };
        match Box::new(alloc, held) {
            Ok(held) => Ok(Kept { held }),
            Err(refused) => {
                let Held {
                    shared,
                    cause: _,
                    live: _,
                    last: _,
                } = refused.value;
                Err(shared)
            }
        }
    }

    /// A turn with which its pass ends, for the cause that is kept, or for this one where none is.
    pub(crate) fn end(&mut self, why: Over) -> Over
        requires live { 0 < self.old.live }
        requires given { self.old.cause ≡ None → IsGiven why }
        ensures turn { EndTurn self.old why result self.new }
        ensures takes { TakesOne self.old self.new }
        ensures finds { FindsNone self.old.cause self.new.cause }
    {
        let held = &mut *self.held;
        held.shared.rest();
        let kept = held.cause.unwrap_or(why);
        held.cause = Some(kept);
        held.live -= 1;
        kept
    }

    /// A turn with one event of the bus.
    ///
    /// # Errors
    ///
    /// The cause with which the pass ends: the one that is kept, or the one for which the step was refused.
    pub(crate) fn bus(&mut self, e: BusEvent) -> Result<BusAnswer, Over>
        requires { 0 < self.old.live }
        ensures turn { BusTurn self.old e result self.new }
        ensures takes { TakesOne self.old self.new }
        ensures finds { FindsWith e self.old self.new }
        ensures gives { GivesNone self.old.cause self.new.cause }
    {
        if let Some(why) = self.held.cause {
            return Err(self.end(why));
        }
        let held = &mut *self.held;
        held.last = e;
        match held.shared.bus_step(e) {
            Ok(a) => {
                held.cause = renew(&mut held.shared, held.live);
                Ok(a)
            }
            Err(end) => {
                let why = over_by(end);
                held.cause = Some(why);
                Err(self.end(why))
            }
        }
    }

    /// A turn with one link step, at the places from this one on, 0 to 15.
    ///
    /// # Errors
    ///
    /// The cause with which the pass ends: the one that is kept, or the one for which the step was refused.
    pub(crate) fn link(&mut self, from: u8) -> Result<LinkDid, Over>
        requires live { 0 < self.old.live }
        requires place { from < 16 }
        ensures turn { LinkTurn self.old from result self.new }
        ensures takes { TakesOne self.old self.new }
        ensures finds { FindsNone self.old.cause self.new.cause }
        ensures gives { GivesNone self.old.cause self.new.cause }
    {
        if let Some(why) = self.held.cause {
            return Err(self.end(why));
        }
        let held = &mut *self.held;
        match held.shared.link_step(from) {
            Ok(did) => {
                held.cause = renew(&mut held.shared, held.live);
                Ok(did)
            }
            Err(end) => {
                let why = over_by(end);
                held.cause = Some(why);
                Err(self.end(why))
            }
        }
    }

    /// The state alone.
    pub(crate) fn into_shared(self) -> Shared<L>
        ensures value { result ≡ self.state }
        ensures leaves { Leaves self.state self.cause }
    {
        let Kept { held } = self;
        let Held {
            shared,
            cause: _,
            live: _,
            last: _,
        } = Box::into_inner(held);
        shared
    }
}
