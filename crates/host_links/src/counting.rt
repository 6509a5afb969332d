//! What real links show: how many calls failed and how many had to wait, what stalled, and which connections are made.
use crate::connections::Made;
use chip_sheet::event::ConnId;
use link_trait::{Accepting, Linking, Reading, Receiving, Sending, Shutting, Writing};

/// Counts of the calls of links, by their answers.
#[derive(Drop)]
pub struct Tally {
    /// How many calls failed.
    faults: u64,
    /// How many were answered NotYet.
    waits: u64,
    /// How many of these were a write or a send_to.
    stalls: u64,
    /// Of each socket: the life on which its last write or send_to was made, where that call was answered NotYet; else 0.
    stalled: [u64; 8],
    /// The connections that were made and not dropped.
    made: Made,
}

impl Tally {
    ghost use Rattle.std.specs.Prelude.{◌<◌, ℕ, List};
    ghost use Rattle.chip_sheet.specs.declared.event.Addr.{Addr};
    ghost use Rattle.chip_sheet.specs.LinkAnswers.{Done};
    ghost use Rattle.link_trait.specs.Calls.{Call, SetRoutes, Connect, Accept, Write, Read, SendTo, RecvFrom, Shut, DropConn, writing, linking, accepting, reading, sending, receiving, shutting};
    ghost use Rattle.link_trait.specs.Routes.{RouteLists};
    ghost use Rattle.link_trait.specs.Shown.{IsFresh};
    ghost use Rattle.host_links.specs.Tallies.{shown_of, Goes};

    /// No call was made.
    pub fn new() -> Tally
        ensures { IsFresh (shown_of result) }
    {
        Tally {
            faults: 0,
            waits: 0,
            stalls: 0,
            stalled: [0; 8],
            made: Made::Nothing,
        }
    }

    /// Routes were set.
    pub fn routed(&self)
        ensures { (routes : RouteLists) → Goes (shown_of self.now) (SetRoutes routes) Done (shown_of self.now) }
    {}

    /// A connect was answered.
    pub fn linked(&mut self, c: ConnId, answer: Linking)
        ensures { (to : Addr) → Goes (shown_of self.old) (Connect c to) (linking answer) (shown_of self.new) }
    {
        match answer {
            Linking::Done => self.made = self.made.with(c),
            Linking::NotYet => self.waits = self.waits.saturating_add(1),
            Linking::Failed => self.faults = self.faults.saturating_add(1),
            Linking::Refused | Linking::TimedOut => {}
        }
    }

    /// An accept was answered.
    pub fn accepted(&mut self, c: ConnId, answer: Accepting)
        ensures { (port : ℕ) → Goes (shown_of self.old) (Accept c port) (accepting answer) (shown_of self.new) }
    {
        match answer {
            Accepting::Done(_) => self.made = self.made.with(c),
            Accepting::NotYet => self.waits = self.waits.saturating_add(1),
            Accepting::Failed => self.faults = self.faults.saturating_add(1),
        }
    }

    /// A write was answered.
    pub fn wrote(&mut self, c: ConnId, answer: Writing)
        requires { c.sn < 8 }
        ensures { (piece : List ℕ) → Goes (shown_of self.old) (Write c piece) (writing answer) (shown_of self.new) }
    {
        let n = c.sn as usize;
        match answer {
            Writing::Done(_) => self.stalled[n] = 0,
            Writing::NotYet => {
                self.stalled[n] = c.life;
                self.waits = self.waits.saturating_add(1);
                self.stalls = self.stalls.saturating_add(1);
            }
            Writing::Failed => {
                self.stalled[n] = 0;
                self.faults = self.faults.saturating_add(1);
            }
        }
    }

    /// A read was answered.
    pub fn has_read(&mut self, c: ConnId, answer: Reading)
        ensures { (count : ℕ) (buf : List ℕ) → Goes (shown_of self.old) (Read c count) (reading answer buf) (shown_of self.new) }
    {
        match answer {
            Reading::Done(_) | Reading::End => {}
            Reading::NotYet => self.waits = self.waits.saturating_add(1),
            Reading::Failed => self.faults = self.faults.saturating_add(1),
        }
    }

    /// A send_to was answered.
    pub fn sent(&mut self, c: ConnId, answer: Sending)
        requires { c.sn < 8 }
        ensures { (port : ℕ) (to : Addr) (body : List ℕ) → Goes (shown_of self.old) (SendTo c port to body) (sending answer) (shown_of self.new) }
    {
        let n = c.sn as usize;
        match answer {
            Sending::Done => self.stalled[n] = 0,
            Sending::NotYet => {
                self.stalled[n] = c.life;
                self.waits = self.waits.saturating_add(1);
                self.stalls = self.stalls.saturating_add(1);
            }
            Sending::Failed => {
                self.stalled[n] = 0;
                self.faults = self.faults.saturating_add(1);
            }
        }
    }

    /// A recv_from was answered.
    pub fn received(&mut self, c: ConnId, answer: Receiving)
        ensures { (port count : ℕ) (buf : List ℕ) → Goes (shown_of self.old) (RecvFrom c port count) (receiving answer buf) (shown_of self.new) }
    {
        match answer {
            Receiving::Done(_, _) => {}
            Receiving::NotYet => self.waits = self.waits.saturating_add(1),
            Receiving::Failed => self.faults = self.faults.saturating_add(1),
        }
    }

    /// A shut was answered.
    pub fn was_shut(&mut self, c: ConnId, answer: Shutting)
        ensures { Goes (shown_of self.old) (Shut c) (shutting answer) (shown_of self.new) }
    {
        match answer {
            Shutting::Done => {}
            Shutting::Failed => self.faults = self.faults.saturating_add(1),
        }
    }

    /// A connection was dropped.
    pub fn dropped(&mut self, c: ConnId)
        ensures { Goes (shown_of self.old) (DropConn c) Done (shown_of self.new) }
    {
        self.made = self.made.without(c);
    }
}
