//! Closing: what is in flight once no more events of the bus come is offered to the links.
ghost use Rattle.std.specs.Prelude.{◌≡◌, ◌<◌, ℕ, true, false, None, ◌==◌, IfErr};
ghost use Rattle.chip_sheet.specs.Windows.{flight};
ghost use Rattle.chip_shared.specs.Closing.{Ends, EndsBy, NoneInFlight, SomeInFlight};
ghost use Rattle.chip_shared.specs.Draining.{IsUnstopped};

use crate::shared::{LinkDid, Shared, StepEnd};
use crate::steps::is_due;
use link_trait::links::Links;

/// How closing ended.
#[derive(Clone, Copy, Debug, PartialEq, Eq)]
pub enum Closing {
    /// No byte is in flight on any socket.
    Clear,
    /// Bytes are in flight, and no call failed: a link did not take them yet.
    Waiting,
    /// Bytes are in flight, and a call failed.
    Faulted,
    /// An outgoing step was due and the history had reached its limit.
    Full,
    /// There was no memory for one more event.
    NoMemory,
}

/// How closing ends where a step was refused.
fn refused(end: StepEnd) -> Closing
    requires { IsUnstopped end }
    ensures { EndsBy end result }
{
    match end {
        StepEnd::TraceFull => Closing::Full,
        StepEnd::NoMemory => Closing::NoMemory,
        StepEnd::Stopped(_) => unreachable!(),
    }
}

impl<L: Links> Shared<L> {
    ghost use Rattle.chip_shared.specs.Causes.{Does, Later};
    ghost use Rattle.chip_shared.specs.Draining.{Drains, is_out_due};
    ghost use Rattle.chip_shared.specs.Closing.{Closes, Leaves};

    /// Whether a call is due at the outgoing place of a socket, 0 to 7.
    fn is_outgoing_due(&self, sn: u8) -> bool
        requires { sn < 8 }
        ensures { result ≡ is_out_due self.now sn }
    {
        is_due(&self.due(2 * sn))
    }

    /// Whether no byte is in flight on a socket, 0 to 7.
    fn is_socket_clear(&self, sn: u8) -> bool
        requires { sn < 8 }
        ensures { result ≡ (flight self.now.starts self.now.log.past sn == 0) }
    {
        let (front, back) = self.chip.offer(sn);
        front.len() + back.len() == 0
    }

    /// Whether no byte is in flight on any socket.
    fn is_clear(&self) -> bool
        ensures clear { result ≡ true → NoneInFlight self.now.starts self.now.log.past }
        ensures some { result ≡ false → SomeInFlight self.now.starts self.now.log.past }
    {
        for sn in 0..8 {
            if !self.is_socket_clear(sn) {
                return false;
            }
        }
        true
    }

    /// How closing ends once it went through all sockets, where a call failed or none did.
    fn ended(&self, faulted: bool) -> Closing
        ensures { Ends self.now.starts self.now.log.past faulted result }
    {
        if self.is_clear() {
            Closing::Clear
        } else if faulted {
            Closing::Faulted
        } else {
            Closing::Waiting
        }
    }

    /// Makes link steps at the outgoing place of a socket, 0 to 7, while something is due there, and answers whether a call
    /// failed. It ends: each call takes bytes that are in flight, or leads the socket nearer to its end.
    ///
    /// # Errors
    ///
    /// As of the link step that was refused.
    fn drain(&mut self, sn: u8) -> Result<bool, StepEnd>
        requires socket { sn < 8 }
        requires unstopped { self.old.stopped ≡ None }
        ensures steps { (most : ℕ) × Drains (Does L.effect L.shown) most sn self.old result self.new }
        ensures unstopped { self.new.stopped ≡ None }
        ensures refused { IfErr result (λ end_. IsUnstopped end_) }
    {
        while self.is_outgoing_due(sn) {
            match self.link_step(2 * sn) {
                Ok(LinkDid::Did(_)) => {}
                Ok(LinkDid::NotYet(_)) => return Ok(false),
                Ok(LinkDid::Fault(_)) => return Ok(true),
                Ok(LinkDid::Idle) => unreachable!(),
                Err(end) => return Err(end),
            }
        }
        Ok(false)
    }

    /// Offers what is in flight to the links, where no stop was answered: it goes through the sockets 0 to 7 in this order, and
    /// makes link steps at the outgoing place of each while something is due there. Behind a call that was answered NotYet, or
    /// that failed, it goes on to the next socket. A step that is refused ends it.
    pub fn closing(&mut self) -> Closing
        requires { self.old.stopped ≡ None }
        ensures steps { Closes (Does L.effect L.shown) 8 0 false self.old result self.new }
        ensures leaves { Leaves result (L.shown self.old.links) self.new (L.shown self.new.links) }
        ensures counts { Later (L.shown self.old.links) (L.shown self.new.links) }
        ensures unstopped { self.new.stopped ≡ None }
    {
        let mut faulted = false;
        for sn in 0..8 {
            match self.drain(sn) {
                Ok(failed) => faulted |= failed,
                Err(end) => return refused(end),
            }
        }
        self.ended(faulted)
    }
}
