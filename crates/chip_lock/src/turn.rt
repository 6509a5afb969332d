//! Turns, and the calls that take them.
//!
//! A turn is taken with a ticket: a call draws the next one, waits until it is served, and takes the state out; it makes its
//! step, puts the state back, and the next ticket is served. Tickets are served in the order in which they were drawn, so a
//! thread that waits has its turn as soon as all that drew before it have had theirs. A thread that waits looks on for a short
//! while, and then sleeps until a ticket is served; it counts itself among those asleep before, so that a turn behind which
//! nobody sleeps wakes none.
ghost use Rattle.std.specs.Prelude.{◌≡◌, ◌<◌, [], None, Some, IfOk, IfErr};
ghost use Rattle.chip_lock.specs.Overs.{IsGiven};
ghost use Rattle.chip_shared.specs.State.{Keeps};

use crate::kept::Kept;
use crate::over::Over;
use crate::pass::Pass;
use crate::table::{Draw, Halves, Leave, Look, Order, SERVING, TICKET, View};
use atomic_table::{Refused, Seat, Table};
use chip_shared::shared::{LinkDid, Shared};
use chip_sheet::event::{BusAnswer, BusEvent};
use link_trait::links::Links;
use std::alloc::Global;
use std::hint::spin_loop;
use std::marker::Model;
use std::snapshot::Snapshot;
use std::sync::Wait;
use std::sync::atomic::AtomicU64;
use std::sync::atomic::Ordering::SeqCst;

/// How often a thread that waits for its turn looks on before it sleeps: longer than it takes to wake the other one.
const MOST_LOOKS: u32 = 1000;

/// The state that two passes take turns at. Contracts see which turns these are.
#[derive(Drop)]
pub struct Turn<L: Links> {
    table: Table<Option<Kept<L>>, View, Snapshot<Shared<L>>, Order<L>, Global>,
    /// How many threads sleep or are about to. It decides who is woken, and nothing else.
    asleep: AtomicU64,
}

impl<L: Links> Model for Turn<L> {
    ghost use Rattle.std.specs.Prelude.{◌≡◌};
    ghost use Rattle.atomic_table.specs.Seated.{TableId};

    ghost Value = { TableId };

    ghost view = { λ t. t.table.shared.table_id };

    ghost invariant = { λ t. (t.table.shared.table_id.words ≡ 2) × (t.table.shared.table_id.slots ≡ 1) };
}

impl<L: Links> Turn<L> {
    ghost use Rattle.chip_lock.specs.Passes.{fresh, StaysOf, BusTaken, BusRefused, LinkTaken, EndsPass, GivesBy, Closes};
    ghost use Rattle.chip_lock.specs.Plays.{Enters};
    ghost use Rattle.chip_lock.specs.Seats.{Resting, IsWaiting, IsInside, IsOut, MayLeave, Gathered};
    ghost use Rattle.chip_lock.specs.Views.{left_with};

    /// Waits a little for the next ticket to be served: by looking on for a short while, since a turn takes little time, and then
    /// asleep until another ticket is served. Answers how often it has looked on.
    fn pause<R: Wait>(&self, rt: &R, served: u64, looks: u32) -> u32 {
        if looks < MOST_LOOKS {
            spin_loop();
            return looks + 1;
        }
        // It sleeps only while that ticket is served still: who serves the next one behind this count wakes it.
        self.asleep.fetch_add(1, SeqCst);
        self.table
            .shared
            .park(rt, SERVING, (served & 0xFFFF_FFFF) as u32);
        self.asleep.fetch_sub(1, SeqCst);
        looks
    }

    /// Waits until the ticket is served. The state then comes to the seat.
    fn wait_for<R: Wait>(&self, rt: &R, seat: &mut Seat<Option<Kept<L>>, View>, ticket: u64)
        requires table { seat.old.table_id ≡ self.now }
        requires waits { IsWaiting seat.old.me ticket }
        ensures seat { (seat.new.table_id ≡ seat.old.table_id) × (seat.new.id ≡ seat.old.id) }
        ensures entered { Enters ticket seat.old.me seat.new.me }
    {
        let shared = &self.table.shared;
        let mut looks = 0;
        for _ in rt.forever() {
            let served = shared.load::<Look>(seat, SERVING);
            if served == ticket {
                return;
            }
            looks = self.pause(rt, served, looks);
        }
        unreachable!()
    }

    /// Draws a ticket, waits until it is served, and takes the state out.
    fn enter<R: Wait>(&self, rt: &R, seat: &mut Seat<Option<Kept<L>>, View>) -> Kept<L>
        requires table { seat.old.table_id ≡ self.now }
        requires rests { Resting seat.old.me }
        ensures seat { (seat.new.table_id ≡ seat.old.table_id) × (seat.new.id ≡ seat.old.id) }
        ensures inside { IsInside seat.old.me result seat.new.me }
    {
        let shared = &self.table.shared;
        let ticket = shared.fetch_add::<Draw>(seat, TICKET, 1);
        self.wait_for(rt, seat, ticket);
        shared.exchange(seat, 0, None).unwrap()
    }

    /// Puts the state back, with one entry more, and serves the next ticket.
    fn leave(&self, seat: &mut Seat<Option<Kept<L>>, View>, kept: Kept<L>)
        requires table { seat.old.table_id ≡ self.now }
        requires out { IsOut seat.old.me }
        requires may { MayLeave seat.old.me.0 kept }
        ensures seat { (seat.new.table_id ≡ seat.old.table_id) × (seat.new.id ≡ seat.old.id) }
        ensures left { seat.new.me ≡ (left_with seat.old.me.0 kept, []) }
    {
        let shared = &self.table.shared;
        match shared.exchange(seat, 0, Some(kept)) {
            None => {}
            Some(_) => unreachable!(),
        }
        shared.fetch_add::<Leave>(seat, SERVING, 1);
        // Who counts itself behind this look finds the next ticket served, and does not sleep.
        if self.asleep.load(SeqCst) != 0 {
            shared.wake_all(SERVING);
        }
    }

    /// Two passes over a state on which nothing happened yet.
    ///
    /// # Errors
    ///
    /// The state again, where memory is missing.
    pub fn start(alloc: Global, shared: Shared<L>) -> Result<(Turn<L>, Pass<L>, Pass<L>), Shared<L>>
        requires past { shared.log.past ≡ [] }
        requires unstopped { shared.stopped ≡ None }
        ensures first { IfOk result (λ r. r.1 ≡ fresh r.0 shared) }
        ensures second { IfOk result (λ r. r.2 ≡ fresh r.0 shared) }
        ensures refused { IfErr result (λ s. Keeps shared s) }
        ensures unstopped { IfErr result (λ s. s.stopped ≡ None) }
    {
        let _calls = shared.calls();
        let about = Snapshot::of(&shared);
        let kept = Kept::new(alloc, shared)?;
        let Ok(mut slots) = Vec::with_capacity(alloc, 1) else {
            return Err(kept.into_shared());
        };
        slots.push_reserved(Some(kept));
        match Table::new(alloc, &[0, 0], slots, &about) {
            Ok((table, mut seat)) => {
                let other = table.shared.split_seat::<Halves>(&mut seat);
                let first = Pass { seat, ended: None };
                let second = Pass {
                    seat: other,
                    ended: None,
                };
                let asleep = AtomicU64::new(0);
                Ok((Turn { table, asleep }, first, second))
            }
            Err(refused) => {
                let Refused { mut slots } = refused;
                let kept = slots.pop().unwrap().unwrap();
                slots.destroy_empty();
                Err(kept.into_shared())
            }
        }
    }

    /// One event of the bus, in a turn of this pass. It may wait for the turn.
    ///
    /// # Errors
    ///
    /// The cause with which the pass ends, or had ended.
    pub fn bus<R: Wait>(&self, rt: &R, pass: &mut Pass<L>, e: BusEvent) -> Result<BusAnswer, Over>
        requires { pass.old.turn ≡ self.now }
        ensures stays { StaysOf pass.old pass.new }
        ensures taken { IfOk result (λ a. BusTaken pass.old e a pass.new) }
        ensures refused { IfErr result (λ why. BusRefused pass.old e why pass.new) }
        ensures gave { pass.new.gave ≡ pass.old.gave }
    {
        if let Some(why) = pass.ended {
            return Err(why);
        }
        let mut kept = self.enter(rt, &mut pass.seat);
        let answer = kept.bus(e);
        self.leave(&mut pass.seat, kept);
        match answer {
            Ok(a) => Ok(a),
            Err(why) => {
                pass.ended = Some(why);
                Err(why)
            }
        }
    }

    /// One link step at the places from this one on, 0 to 15, in a turn of this pass. It may wait for the turn.
    ///
    /// # Errors
    ///
    /// The cause with which the pass ends, or had ended.
    pub fn link<R: Wait>(&self, rt: &R, pass: &mut Pass<L>, from: u8) -> Result<LinkDid, Over>
        requires turn { pass.old.turn ≡ self.now }
        requires place { from < 16 }
        ensures stays { StaysOf pass.old pass.new }
        ensures taken { IfOk result (λ did. LinkTaken pass.old from did pass.new) }
        ensures refused { IfErr result (λ why. EndsPass pass.old why pass.new) }
        ensures found { pass.new.found ≡ pass.old.found }
        ensures gave { pass.new.gave ≡ pass.old.gave }
    {
        if let Some(why) = pass.ended {
            return Err(why);
        }
        let mut kept = self.enter(rt, &mut pass.seat);
        let did = kept.link(from);
        self.leave(&mut pass.seat, kept);
        match did {
            Ok(did) => Ok(did),
            Err(why) => {
                pass.ended = Some(why);
                Err(why)
            }
        }
    }

    /// Ends the pass in a turn of it, with the cause that is kept, or with this one where none is. It may wait for the turn.
    pub fn end<R: Wait>(&self, rt: &R, pass: &mut Pass<L>, why: Over) -> Over
        requires turn { pass.old.turn ≡ self.now }
        requires given { IsGiven why }
        ensures stays { StaysOf pass.old pass.new }
        ensures ends { EndsPass pass.old result pass.new }
        ensures found { pass.new.found ≡ pass.old.found }
        ensures gave { GivesBy why pass.old result pass.new }
    {
        if let Some(why) = pass.ended {
            return why;
        }
        let mut kept = self.enter(rt, &mut pass.seat);
        let cause = kept.end(why);
        self.leave(&mut pass.seat, kept);
        pass.ended = Some(cause);
        cause
    }

    /// Makes the two seats one, and closes the table with it.
    fn gather(
        self,
        mut seat: Seat<Option<Kept<L>>, View>,
        other: Seat<Option<Kept<L>>, View>,
    ) -> Kept<L>
        requires first { (seat.table_id ≡ self) × Resting seat.me }
        requires second { (other.table_id ≡ self) × Resting other.me }
        ensures { Gathered seat.me.0 other.me.0 result }
    {
        let Turn { table, asleep: _ } = self;
        table.shared.join_seat::<Halves>(&mut seat, other);
        let mut closed = table.close_with(seat);
        let kept = closed.take(0).unwrap();
        closed.free();
        kept
    }

    /// The state again, once both passes are done with. Each place of its history stands in exactly one of their lists.
    pub fn close(self, a: Pass<L>, b: Pass<L>) -> Shared<L>
        requires first { a.turn ≡ self }
        requires second { b.turn ≡ self }
        ensures { Closes a b result }
    {
        let Pass { seat, ended: _ } = a;
        let Pass {
            seat: other,
            ended: _,
        } = b;
        self.gather(seat, other).into_shared()
    }
}
