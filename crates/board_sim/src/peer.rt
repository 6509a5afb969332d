//! The board beside the microcontroller: the chip with scripted peers, as the firmware's bus asks it.
ghost use Rattle.std.specs.Prelude.{◌≡◌, ◌<◌, ◌≤◌, ◌+◌, ◌^◌, None};
ghost use Rattle.chip_sheet.specs.Legal.{Legal};
ghost use Rattle.chip_shared.specs.Tied.{Tied};
ghost use Rattle.chip_core.specs.Chip.{Stands};
ghost use Rattle.link_script.specs.Links.{played_of};
ghost use Rattle.link_script.specs.Play.{shown};
ghost use Rattle.avr_run.specs.Steps.{Functional};
ghost use Rattle.avr_run.specs.Told.{Tells};
ghost use Rattle.board_sim.specs.Boards.{answers, counted, next};
ghost use Rattle.board_sim.specs.Closes.{closed};
ghost use Rattle.board_sim.specs.Sweeps.{rested};
ghost use Rattle.board_sim.specs.Seats.{seen, given, told_of, ClosesTo, IsCause, IsWell, LeadsBy};

use avr_run::ToldPeer;
use avr_space::{BusIsOver, BusPeer};
use board_bus::{BusAnswer, BusEvent};
use chip_core::Chip;
use chip_hist::History;
use chip_shared::closing::Closing;
use chip_shared::shared::{Shared, StepEnd};
use link_script::ScriptLinks;
use std::marker::Model;

/// So many changes of the select line and bytes bring a sweep.
pub const SWEEP_BYTES: u64 = 8;

/// So many instructions bring a sweep.
pub const SWEEP_STEPS: u64 = 1024;

/// An event of the bus that got no answer, and why.
#[derive(Clone, Copy, Debug, PartialEq, Eq)]
pub struct Unanswered {
    /// The event.
    pub event: BusEvent,
    /// Why the step was refused.
    pub end: StepEnd,
}

/// The chip, its history and its scripted peers, and what the firmware asked of them since the last sweep.
#[derive(Drop)]
pub struct BoardPeer {
    shared: Shared<ScriptLinks>,
    /// The first event that got no answer; none behind it gets one.
    refused: Option<Unanswered>,
    /// Changes of the select line and bytes since the last sweep.
    bytes: u64,
    /// Instructions since the last sweep.
    steps: u64,
}

impl Model for BoardPeer {
    ghost use Rattle.board_sim.specs.Seats.{Seat, IsSeat};

    ghost Value = { Seat };

    ghost view = { λ p. record { now = p.shared; refused = p.refused; bytes = p.bytes; steps = p.steps } };

    ghost invariant = { λ p. IsSeat (record { now = p.shared; refused = p.refused; bytes = p.bytes; steps = p.steps }) };
}

/// What an event counts as, on the way to the next sweep.
fn counted(event: BusEvent) -> u64
    ensures value { result ≡ counted event }
    ensures one { result ≤ 1 }
{
    match event {
        BusEvent::Select(_) | BusEvent::Byte(_) => 1,
        BusEvent::Look => 0,
    }
}

impl BoardPeer {
    /// A board before the first step.
    pub fn new(shared: Shared<ScriptLinks>) -> BoardPeer
        requires { shared.stopped ≡ None }
        ensures { result ≡ record { now = shared; refused = None; bytes = 0; steps = 0 } }
    {
        BoardPeer {
            shared,
            refused: None,
            bytes: 0,
            steps: 0,
        }
    }

    /// The first event that got no answer.
    pub fn unanswered(&self) -> Option<Unanswered>
        ensures value { result ≡ self.now.refused }
        ensures cause { IsCause self.now.refused self.now.now }
    {
        self.refused
    }

    /// How many instructions went by since the last sweep.
    pub fn steps(&self) -> u64
        ensures { result ≡ self.now.steps }
    {
        self.steps
    }

    /// Asks the chip; an event that gets no answer is kept.
    fn ask(&mut self, event: BusEvent) -> Result<BusAnswer, BusIsOver>
        ensures tells { Tells event (told_of self.old) (given event result) (told_of self.new) }
        ensures starts { self.new.now.starts ≡ self.old.now.starts }
        ensures functional { IsWell self.new → Functional seen IsWell answers next self.old event (given event result) self.new }
    {
        if self.refused.is_some() {
            return Err(BusIsOver);
        }
        match self.shared.bus_step(event) {
            Ok(answer) => {
                self.bytes += counted(event);
                Ok(answer)
            }
            Err(end) => {
                self.refused = Some(Unanswered { event, end });
                Err(BusIsOver)
            }
        }
    }

    /// Counts instructions.
    pub fn count(&mut self, instructions: u64)
        requires { self.old.steps + instructions < 2 ^ 64 }
        ensures { self.new ≡ record self.old { steps = self.old.steps + instructions } }
    {
        self.steps += instructions;
    }

    /// Makes a sweep where one is due.
    ///
    /// # Errors
    ///
    /// As of the link step that was refused: the history is full, or memory is missing.
    pub fn rest(&mut self) -> Result<(), StepEnd>
        requires { self.old.refused ≡ None }
        ensures rests { LeadsBy result (rested (seen self.old)) (seen self.new) }
        ensures unrefused { self.new.refused ≡ None }
        ensures starts { self.new.now.starts ≡ self.old.now.starts }
        ensures bytes { self.new.bytes < 8 }
        ensures steps { self.new.steps < 1024 }
    {
        if self.bytes < SWEEP_BYTES && self.steps < SWEEP_STEPS {
            return Ok(());
        }
        self.bytes = 0;
        self.steps = 0;
        self.shared.sweep()
    }

    /// Offers what is in flight to the peers, once the firmware has ended.
    pub fn close(&mut self) -> Closing
        requires { self.old.refused ≡ None }
        ensures closes { ClosesTo result (closed (seen self.old)) (seen self.new) }
        ensures unrefused { self.new.refused ≡ None }
        ensures starts { self.new.now.starts ≡ self.old.now.starts }
    {
        self.shared.closing()
    }

    /// Gives the chip, its history and its peers back.
    pub fn into_parts(self) -> (Chip, History, ScriptLinks)
        ensures stands { Stands self.now.starts result.0 self.now.log.past }
        ensures history { result.1 ≡ self.now.log }
        ensures links { result.2 ≡ self.now.links }
        ensures legal { Legal self.now.starts self.now.log.past }
        ensures tied { Tied self.now.starts self.now.log.past (shown (played_of self.now.links)) }
    {
        self.shared.keeps();
        self.shared.into_parts()
    }
}

impl BusPeer for BoardPeer {
    ghost did = { λ p c a q. Tells c (told_of p) a (told_of q) × (IsWell q → Functional seen IsWell answers next p c a q) × (q.now.starts ≡ p.now.starts) };

    fn select(&mut self, low: bool) -> Result<(), BusIsOver> {
        match self.ask(BusEvent::Select(low)) {
            Ok(_) => Ok(()),
            Err(over) => Err(over),
        }
    }

    fn byte(&mut self, mosi: u8) -> Result<u8, BusIsOver> {
        match self.ask(BusEvent::Byte(mosi)) {
            Ok(BusAnswer::Out(miso)) => Ok(miso),
            Ok(_) => Ok(0),
            Err(over) => Err(over),
        }
    }

    fn look(&mut self) -> Result<bool, BusIsOver> {
        match self.ask(BusEvent::Look) {
            Ok(BusAnswer::Level(high)) => Ok(high),
            Ok(_) => Ok(true),
            Err(over) => Err(over),
        }
    }
}

impl ToldPeer for BoardPeer {
    ghost told = { told_of };

    fn wanted(&self) -> Option<BusEvent> {
        match self.refused {
            Some(unanswered) => Some(unanswered.event),
            None => None,
        }
    }

    ghost tells = { λ p c a q it. it.0 };
}
