//! The firmware's bus in a live run: each event is a turn of the firmware's pass.
ghost use Rattle.std.specs.Prelude.{◌≡◌, None, Some};
ghost use Rattle.avr_run.specs.Told.{Tells};
ghost use Rattle.board_sim.specs.Seats.{given};
ghost use Rattle.board_run.specs.Wires.{told_of, IsFirst, Keeps};
ghost use Rattle.board_run.specs.Sides.{IsLeft, Quiet};

use avr_run::ToldPeer;
use avr_space::{BusIsOver, BusPeer};
use board_bus::{BusAnswer, BusEvent};
use chip_lock::over::Over;
use chip_lock::pass::Pass;
use chip_lock::turn::Turn;
use link_trait::links::Links;
use live_trait::{Gate, Point};
use ready_loop::ready::sweep;
use std::marker::Model;
use std::sync::Wait;

/// An event of the bus that got no answer, and the cause with which the turns ended.
#[derive(Clone, Copy, Debug, PartialEq, Eq)]
pub struct Unanswered {
    /// The event.
    pub event: BusEvent,
    /// Why the turns ended.
    pub why: Over,
}

/// The turns, the firmware's pass, and the first event that got no answer.
#[derive(Drop)]
pub struct Wire<'a, R, L: Links, G> {
    rt: &'a R,
    turn: &'a Turn<L>,
    gate: &'a G,
    pass: Pass<L>,
    refused: Option<Unanswered>,
}

impl<'a, R, L: Links, G> Model for Wire<'a, R, L, G> {
    ghost use Rattle.board_run.specs.Wires.{WireView, IsWire};

    ghost Value = { WireView };

    ghost view = { λ w. record { turn = w.turn.now; pass = w.pass; refused = w.refused } };

    ghost invariant = { λ w. IsWire (record { turn = w.turn.now; pass = w.pass; refused = w.refused }) };
}

impl<'a, R: Wait, L: Links, G: Gate> Wire<'a, R, L, G> {
    /// The firmware's bus before the first event.
    pub fn new(rt: &'a R, turn: &'a Turn<L>, gate: &'a G, pass: Pass<L>) -> Wire<'a, R, L, G>
        requires first { IsFirst turn.now pass }
        ensures { result ≡ record { turn = turn.entry.now; pass = pass; refused = None } }
    {
        Wire {
            rt,
            turn,
            gate,
            pass,
            refused: None,
        }
    }

    /// Takes a turn with the event; an event that gets no answer is kept.
    fn ask(&mut self, event: BusEvent) -> Result<BusAnswer, BusIsOver>
        ensures tells { Tells event (told_of self.old) (given event result) (told_of self.new) }
        ensures keeps { Keeps self.old self.new }
    {
        if self.refused.is_some() {
            return Err(BusIsOver);
        }
        self.gate.at(Point::Firmware);
        match self.turn.bus(self.rt, &mut self.pass, event) {
            Ok(answer) => Ok(answer),
            Err(why) => {
                self.refused = Some(Unanswered { event, why });
                Err(BusIsOver)
            }
        }
    }

    /// Makes a sweep with the pass of the links, where no thread does. An ended pass makes none.
    pub(crate) fn sweep(&mut self, links: &mut Pass<L>)
        requires turn { links.old.turn ≡ self.old.turn }
        ensures same { self.new ≡ self.old }
        ensures quiet { Quiet links.old links.new }
    {
        let _ = sweep(self.rt, self.turn, links, self.gate);
    }

    /// Ends the firmware's pass, if it has not ended, and gives it back with the cause for which an event got no answer.
    pub(crate) fn finish(self) -> (Pass<L>, Option<Unanswered>)
        ensures left { IsLeft self.entry result.0 }
        ensures refused { result.1 ≡ self.entry.refused }
    {
        let Wire {
            rt,
            turn,
            gate: _,
            mut pass,
            refused,
        } = self;
        let _ = turn.end(rt, &mut pass, Over::Finished);
        (pass, refused)
    }
}

impl<'a, R: Wait, L: Links, G: Gate> BusPeer for Wire<'a, R, L, G> {
    ghost did = { λ p c a q. Tells c (told_of p) a (told_of q) × Keeps p q };

    fn select(&mut self, low: bool) -> Result<(), BusIsOver> {
        match self.ask(BusEvent::Select(low)) {
            Ok(_) => Ok(()),
            Err(over) => Err(over),
        }
    }

    fn byte(&mut self, mosi: u8) -> Result<u8, BusIsOver> {
        match self.ask(BusEvent::Byte(mosi)) {
            Ok(BusAnswer::Out(miso)) => Ok(miso),
            Ok(_) => Ok(0),
            Err(over) => Err(over),
        }
    }

    fn look(&mut self) -> Result<bool, BusIsOver> {
        match self.ask(BusEvent::Look) {
            Ok(BusAnswer::Level(high)) => Ok(high),
            Ok(_) => Ok(true),
            Err(over) => Err(over),
        }
    }
}

impl<'a, R: Wait, L: Links, G: Gate> ToldPeer for Wire<'a, R, L, G> {
    ghost told = { told_of };

    fn wanted(&self) -> Option<BusEvent> {
        match self.refused {
            Some(unanswered) => Some(unanswered.event),
            None => None,
        }
    }

    ghost tells = { λ p c a q it. it.0 };
}
