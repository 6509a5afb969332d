//! The console and the receiver's two bytes.
ghost use Rattle.std.specs.Prelude.{◌≡◌, ◌≤◌, ◌<◌, length, drop, Some, None};

use crate::arrival::Arrival;
use crate::waiting::Waiting;
use std::marker::Model;

/// What a USART receiver gets from a console, and what waits in it.
///
/// The console sends its next byte where the receiver is on and has room. A frame arrives one frame time after the latest of: the
/// receiver going on, the last arrival, and the reading that made room; the frame time is the one that held at that moment.
#[derive(Drop)]
pub struct Console {
    cycle: u64,
    on: bool,
    frame: u32,
    coming: Option<Arrival>,
    waiting: Waiting,
    bytes: Vec<u8>,
    sent: usize,
}

impl Model for Console {
    ghost use Rattle.std.specs.Prelude.{◌≤◌, length, drop};
    ghost use Rattle.avr_console.specs.Console.{ConsoleState};

    ghost Value = { ConsoleState };

    ghost view = { λ c. record {
      cycle = c.cycle;
      on = c.on;
      frame = c.frame;
      coming = c.coming;
      waiting = c.waiting;
      left = drop c.sent c.bytes.items;
    } };

    ghost invariant = { λ c. c.sent ≤ length c.bytes.items };
}

impl Console {
    ghost use Rattle.avr_console.specs.Console.{StaysUntil, begun, enabled, is_more, is_ready, landed, next_event, oldest_of, once, passed, started, taken};

    /// A receiver that is off, before a console with these bytes.
    pub fn new(bytes: Vec<u8>) -> Console
        ensures { result ≡ started bytes.items }
    {
        Console {
            cycle: 0,
            on: false,
            frame: 0,
            coming: None,
            waiting: Waiting::Nothing,
            bytes,
            sent: 0,
        }
    }

    /// RXEN is written at a cycle count, and a frame takes so many cycles from now on. A receiver that goes on has a frame on the
    /// way from now on, one that stays on keeps the one that is on the way, and one that is off has none; what waits stays.
    pub fn enable(&mut self, on: bool, frame: u32, at: u64)
        ensures { self.new ≡ enabled on frame at self.old }
    {
        let was_on = self.on;
        self.on = on;
        self.frame = frame;
        if !on {
            self.coming = None;
        } else if !was_on {
            self.begin(at);
        }
    }

    /// The cycles from one count to another go by.
    #[inline]
    pub fn pass(&mut self, from: u64, to: u64)
        requires { from ≤ to }
        ensures { self.new ≡ passed self.old to }
    {
        prove!(from <= to);
        self.arrive(to);
        self.arrive(to);
        self.cycle = to;
    }

    /// RXC: whether a byte waits.
    #[inline]
    pub fn ready(&self) -> bool
        ensures { result ≡ is_ready self.now.waiting }
    {
        self.waiting.is_ready()
    }

    /// Reads the oldest byte that waits, at the cycle count that was passed last; `None` exactly where none does.
    pub fn take(&mut self) -> Option<u8>
        ensures value { result ≡ oldest_of self.old.waiting }
        ensures state { self.new ≡ taken self.old }
    {
        match self.waiting {
            Waiting::Nothing => None,
            Waiting::One(oldest) => {
                self.waiting = Waiting::Nothing;
                Some(oldest)
            }
            Waiting::Two(oldest, newest) => {
                self.waiting = Waiting::One(newest);
                let at = self.cycle;
                self.begin(at);
                Some(oldest)
            }
        }
    }

    /// The next event: the cycle count at which the frame on the way arrives, `u64::MAX` where there is none. Until then nothing
    /// changes but the count of cycles.
    #[inline]
    pub fn next_event(&self) -> u64
        ensures value { result ≡ next_event self.now }
        ensures stays { StaysUntil self.now result }
    {
        match self.coming {
            Some(frame) => frame.began.saturating_add(u64::from(frame.cycles)),
            None => u64::MAX,
        }
    }

    /// There is a next byte.
    #[tactic(auto, using(crate::proofs::Left::more_left, crate::proofs::Left::none_left))]
    fn is_more(&self) -> bool
        ensures { result ≡ is_more self.now.left }
    {
        self.sent < self.bytes.len()
    }

    /// A frame begins, where the receiver is on, has room, and there is a next byte.
    fn begin(&mut self, at: u64)
        ensures { self.new ≡ begun at self.old }
    {
        let cycles = self.frame;
        let is_more = self.is_more();
        if self.on && self.waiting.has_room() && is_more {
            self.coming = Some(Arrival { began: at, cycles });
        } else {
            self.coming = None;
        }
    }

    /// One frame at most arrives.
    fn arrive(&mut self, by_now: u64)
        ensures { self.new ≡ once by_now self.old }
    {
        if let Some(frame) = self.coming {
            if let Some(at) = frame.end(by_now) {
                self.land(at);
            }
        }
    }

    /// The next byte arrives.
    fn land(&mut self, at: u64)
        ensures { self.new ≡ landed at self.old.left self.old }
    {
        let sent = self.sent;
        if sent < self.bytes.len() {
            let byte = self.bytes[sent];
            self.waiting = self.waiting.joined(byte);
            self.sent = sent + 1;
            self.begin(at);
        } else {
            self.coming = None;
        }
    }
}
