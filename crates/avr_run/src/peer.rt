//! A peer on the microcontroller's bus that tells what it was asked and answered.
ghost use Rattle.std.specs.Prelude.{◌≡◌};
ghost use Rattle.avr_space.specs.Peer.{AnswerTo};
ghost use Rattle.board_bus.specs.declared.event.BusEvent.{BusEvent};
ghost use Rattle.avr_run.specs.Told.{Told, Tells};

use avr_mcu::BusPeer;
use board_bus::BusEvent;

/// A peer of which it is known what it was asked and what it answered.
pub trait ToldPeer: BusPeer {
    /// The events that got an answer, their answers, and the first event that got none.
    ghost told: { Self → Told };

    /// The first event that got no answer.
    fn wanted(&self) -> Option<BusEvent>
        ensures { result ≡ (told self.now).wanted };

    /// Each event adds itself and its answer, or is the first one to get none, or comes after that one.
    ghost tells: { (p : Self) (c : BusEvent) (a : AnswerTo c) (q : Self) → Self.did p c a q → Tells c (told p) a (told q) };
}
