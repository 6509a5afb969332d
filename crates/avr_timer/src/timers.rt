//! The three timers, and which interrupt of them is pending.
ghost use Rattle.std.specs.Prelude.{◌≡◌, ◌<◌, ◌≤◌, find};
ghost use Rattle.avr_timer.specs.Timers.{reset_state, passed};
ghost use Rattle.avr_timer.specs.Writes.{read_value, read_state, write_outcome, outcome_at, answer_of, left_by};
ghost use Rattle.avr_timer.specs.Laws.{IsHeld};
ghost use Rattle.avr_timer.specs.Quiet.{RequestComes, StaysQuiet};
ghost use Rattle.avr_timer.specs.Requests.{pending_vector, served_state, is_requested, timer0_vectors, timer1_and_0_vectors};

use crate::modes::{prescale_of, timer2_prescale_of};
use crate::place::{Place, Register8, Register16, place_at};
use crate::stop::stop_of_assr;
use crate::timer8::Timer8;
use crate::timer16::Timer16;
use avr_sheet::{DeviceStop, is_set};
use std::marker::Model;

/// The word addresses of the vectors.
const TIMER2_COMPA: u8 = 0x0E;

const TIMER2_COMPB: u8 = 0x10;

const TIMER2_OVF: u8 = 0x12;

const TIMER1_COMPA: u8 = 0x16;

const TIMER1_COMPB: u8 = 0x18;

const TIMER1_OVF: u8 = 0x1A;

const TIMER0_COMPA: u8 = 0x1C;

const TIMER0_COMPB: u8 = 0x1E;

const TIMER0_OVF: u8 = 0x20;

/// The three timers of an ATmega328P.
///
/// Addresses are data addresses, and a vector is named by its word address in flash.
#[derive(Clone, Copy, PartialEq, Eq)]
pub struct Timers {
    assr: u8,
    timer0: Timer8,
    timer1: Timer16,
    timer2: Timer8,
}

impl Model for Timers {
    ghost use Rattle.avr_timer.specs.Timers.{TimersState};

    ghost Value = { TimersState };

    ghost view = { λ s. record { assr = s.assr; timer0 = s.timer0; timer1 = s.timer1; timer2 = s.timer2 } };

    ghost inverse = { λ v. record { assr = v.assr; timer0 = v.timer0; timer1 = v.timer1; timer2 = v.timer2 } };
}

impl Default for Timers {
    ghost use Rattle.std.specs.Prelude.{◌≡◌};
    ghost use Rattle.avr_timer.specs.Timers.{reset_state};

    ghost is_default = { λ s. s ≡ reset_state };

    fn default() -> Self {
        Timers::new()
    }
}

impl Timers {
    /// The timers after reset: all registers 00, and no timer runs.
    pub fn new() -> Timers
        ensures { result ≡ reset_state }
    {
        Timers {
            assr: 0,
            timer0: Timer8::new(),
            timer1: Timer16::new(),
            timer2: Timer8::new(),
        }
    }

    /// What the register at a data address reads. Reading TCNT1L or ICR1L fills TEMP with the high byte, and changes
    /// nothing else. An address that is not the timers' reads 00.
    pub fn read(&mut self, addr: u16) -> u8
        ensures value { result ≡ read_value self.old addr }
        ensures after { self.new ≡ read_state self.old addr }
    {
        match place_at(addr) {
            None => 0,
            Some(Place::Zero(register)) => self.timer0.value(register),
            Some(Place::One(register)) => {
                let value = self.timer1.value(register);
                self.timer1 = self.timer1.read(register);
                value
            }
            Some(Place::Two(register)) => self.timer2.value(register),
            Some(Place::AsyncStatus) => self.assr,
        }
    }

    /// Writes a byte to the register at a data address. At an address that is not the timers' nothing happens.
    ///
    /// # Errors
    ///
    /// The stop that the write would leave: `ExternalClock` for clock select 6 or 7 of timer 0 or 1 and for bit 5 of
    /// ASSR, else `TimerMode` for a running timer in a mode that is not offered, else `WaveformPin` for a running
    /// timer with a bit of TCCRnA 7..4 set. Nothing is changed then.
    pub fn write(&mut self, addr: u16, v: u8) -> Result<(), DeviceStop>
        ensures answer { result ≡ answer_of (write_outcome self.old addr v) }
        ensures after { self.new ≡ left_by self.old (write_outcome self.old addr v) }
    {
        match place_at(addr) {
            None => Ok(()),
            Some(Place::Zero(register)) => self.write0(register, v),
            Some(Place::One(register)) => self.write1(register, v),
            Some(Place::Two(register)) => self.write2(register, v),
            Some(Place::AsyncStatus) => match stop_of_assr(v) {
                Some(stop) => Err(stop),
                None => {
                    self.assr = v;
                    Ok(())
                }
            },
        }
    }

    fn write0(&mut self, register: Register8, v: u8) -> Result<(), DeviceStop>
        ensures answer { result ≡ answer_of (outcome_at self.old (Some (Place.Zero register)) v) }
        ensures after { self.new ≡ left_by self.old (outcome_at self.old (Some (Place.Zero register)) v) }
    {
        let timer = self.timer0.written(register, v);
        match timer.stop0() {
            Some(stop) => Err(stop),
            None => {
                self.timer0 = timer;
                Ok(())
            }
        }
    }

    fn write1(&mut self, register: Register16, v: u8) -> Result<(), DeviceStop>
        ensures answer { result ≡ answer_of (outcome_at self.old (Some (Place.One register)) v) }
        ensures after { self.new ≡ left_by self.old (outcome_at self.old (Some (Place.One register)) v) }
    {
        let timer = self.timer1.written(register, v);
        match timer.stop1() {
            Some(stop) => Err(stop),
            None => {
                self.timer1 = timer;
                Ok(())
            }
        }
    }

    fn write2(&mut self, register: Register8, v: u8) -> Result<(), DeviceStop>
        ensures answer { result ≡ answer_of (outcome_at self.old (Some (Place.Two register)) v) }
        ensures after { self.new ≡ left_by self.old (outcome_at self.old (Some (Place.Two register)) v) }
    {
        let timer = self.timer2.written(register, v);
        match timer.stop2() {
            Some(stop) => Err(stop),
            None => {
                self.timer2 = timer;
                Ok(())
            }
        }
    }

    /// The time passes from one count of cycles since reset to another. A timer that stands is left as it is.
    #[inline]
    pub fn pass(&mut self, from: u64, to: u64)
        requires { from ≤ to }
        ensures { self.new ≡ passed self.old from to }
    {
        let prescale0 = prescale_of(self.timer0.tccrb % 8);
        let prescale1 = prescale_of(self.timer1.tccrb % 8);
        let prescale2 = timer2_prescale_of(self.timer2.tccrb % 8);
        self.timer0.pass(prescale0, from, to);
        self.timer1.pass(prescale1, from, to);
        self.timer2.pass(prescale2, from, to);
    }

    /// The pending interrupt, by the word address of its vector: the lowest whose flag is set and that is enabled.
    /// `None` exactly where there is none.
    #[inline]
    pub fn pending(&self) -> Option<u8>
        ensures { result ≡ pending_vector self.now }
    {
        if is_set(self.timer2.timsk, 1) && self.timer2.flags.match_a {
            Some(TIMER2_COMPA)
        } else if is_set(self.timer2.timsk, 2) && self.timer2.flags.match_b {
            Some(TIMER2_COMPB)
        } else if is_set(self.timer2.timsk, 0) && self.timer2.flags.overflow {
            Some(TIMER2_OVF)
        } else {
            self.pending_of_1_and_0()
        }
    }

    /// The cycle count of the next request of the timers, where none is pending at `now`, the count that was passed last: that
    /// at which the next tick raises an enabled flag, `u64::MAX` where none does.
    pub fn quiet_until(&self, now: u64) -> u64
        ensures before { StaysQuiet self.now now result }
        ensures at { RequestComes self.now now result }
    {
        let until0 = self
            .timer0
            .quiet_until(prescale_of(self.timer0.tccrb % 8), now);
        let until1 = self
            .timer1
            .quiet_until(prescale_of(self.timer1.tccrb % 8), now);
        let until2 = self
            .timer2
            .quiet_until(timer2_prescale_of(self.timer2.tccrb % 8), now);
        until0.min(until1).min(until2)
    }

    /// The registers hold what fits in them: a fact for proofs, and nothing to run.
    #[inline(always)]
    pub fn fits(&self)
        ensures { IsHeld self.now }
    {
        let (count0, compare0) = (self.timer0.tcnt, self.timer0.ocra);
        let (count1, compare1, capture1) = (self.timer1.tcnt, self.timer1.ocra, self.timer1.icr);
        let (count2, compare2) = (self.timer2.tcnt, self.timer2.ocra);
        prove!(count0 <= 255 && compare0 <= 255 && count2 <= 255 && compare2 <= 255);
        prove!(count1 <= 65535 && compare1 <= 65535 && capture1 <= 65535);
    }

    fn pending_of_1_and_0(&self) -> Option<u8>
        ensures { result ≡ find (is_requested self.now) timer1_and_0_vectors }
    {
        if is_set(self.timer1.timsk, 1) && self.timer1.flags.match_a {
            Some(TIMER1_COMPA)
        } else if is_set(self.timer1.timsk, 2) && self.timer1.flags.match_b {
            Some(TIMER1_COMPB)
        } else if is_set(self.timer1.timsk, 0) && self.timer1.flags.overflow {
            Some(TIMER1_OVF)
        } else {
            self.pending_of_0()
        }
    }

    fn pending_of_0(&self) -> Option<u8>
        ensures { result ≡ find (is_requested self.now) timer0_vectors }
    {
        if is_set(self.timer0.timsk, 1) && self.timer0.flags.match_a {
            Some(TIMER0_COMPA)
        } else if is_set(self.timer0.timsk, 2) && self.timer0.flags.match_b {
            Some(TIMER0_COMPB)
        } else if is_set(self.timer0.timsk, 0) && self.timer0.flags.overflow {
            Some(TIMER0_OVF)
        } else {
            None
        }
    }

    /// Clears the flag of a vector that is served, and no other. A vector that is not the timers' changes nothing.
    pub fn served(&mut self, vector: u8)
        ensures { self.new ≡ served_state self.old vector }
    {
        match vector {
            TIMER2_COMPA => self.timer2.flags.match_a = false,
            TIMER2_COMPB => self.timer2.flags.match_b = false,
            TIMER2_OVF => self.timer2.flags.overflow = false,
            TIMER1_COMPA => self.timer1.flags.match_a = false,
            TIMER1_COMPB => self.timer1.flags.match_b = false,
            TIMER1_OVF => self.timer1.flags.overflow = false,
            TIMER0_COMPA => self.timer0.flags.match_a = false,
            TIMER0_COMPB => self.timer0.flags.match_b = false,
            TIMER0_OVF => self.timer0.flags.overflow = false,
            _ => {}
        }
    }
}
