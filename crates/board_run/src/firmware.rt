//! The firmware's side of a live run: the microcontroller over its bus, step by step, up to what cuts it.
ghost use Rattle.std.specs.Prelude.{◌≡◌, ◌≤◌, ◌+◌, ◌^◌, None, Some};
ghost use Rattle.wz_base.specs.Outside.{RisesOnly};
ghost use Rattle.board_sim.specs.Playing.{printing};
ghost use Rattle.board_run.specs.Wires.{told_of, Keeps};
ghost use Rattle.board_run.specs.Going.{Goes, IsReady, SettlesTo};
ghost use Rattle.board_run.specs.Sides.{Quiet};

use crate::wire::Wire;
use avr_mcu::Mcu;
use avr_run::{RunEnd as FirmwareEnd, take_stretch, take_turn};
use board_sim::output::put;
use chip_lock::pass::Pass;
use link_trait::links::Links;
use live_trait::Gate;
use std::sync::Wait;
use wz_base::Sink;

/// So many steps of the firmware are made between two sweeps, where one thread does both.
const STEPS: u64 = 64;

/// What cuts the firmware's side of a run.
#[derive(Clone, Copy, Debug, PartialEq, Eq)]
pub enum Cut {
    /// Its last step ended it.
    Step(FirmwareEnd),
    /// A printed byte could not be written.
    WriteFault,
}

/// The firmware's side under way.
#[derive(Drop)]
pub struct Firmware<'a, R, L: Links, G> {
    /// The microcontroller.
    pub mcu: Mcu,
    /// Its bus.
    pub wire: Wire<'a, R, L, G>,
    /// How many cycles it may take.
    pub cycles: u64,
    /// The last byte that it printed.
    pub last: Option<u8>,
}

impl<'a, R: Wait, L: Links, G: Gate> Firmware<'a, R, L, G> {
    /// Behind steps: writes the byte that was printed, and takes the end of the run.
    fn settle<K: Sink>(
        &mut self,
        byte: Option<u8>,
        end: Option<FirmwareEnd>,
        out: &mut K,
    ) -> Option<Cut>
        ensures settles { SettlesTo byte end result (printing (K.written out.old) self.old.last) (printing (K.written out.new) self.new.last) }
        ensures mcu { self.new.mcu ≡ self.old.mcu }
        ensures wire { self.new.wire ≡ self.old.wire }
        ensures cycles { self.new.cycles ≡ self.old.cycles }
        ensures faults { RisesOnly (result ≡ Some Cut.WriteFault) (K.faults out.old) (K.faults out.new) }
    {
        if put(out, byte).is_err() {
            return Some(Cut::WriteFault);
        }
        if let Some(byte) = byte {
            self.last = Some(byte);
        }
        match end {
            Some(end) => Some(Cut::Step(end)),
            None => None,
        }
    }

    /// One step.
    fn turn<K: Sink>(&mut self, out: &mut K) -> Option<Cut>
        requires ready { IsReady self.old.cycles self.old.mcu }
        requires limit { self.old.cycles ≤ 2 ^ 63 }
        ensures goes { Goes result self.old.cycles self.old.mcu (told_of self.old.wire) self.new.mcu (told_of self.new.wire) (printing (K.written out.old) self.old.last) (printing (K.written out.new) self.new.last) }
        ensures keeps { Keeps self.old.wire self.new.wire }
        ensures cycles { self.new.cycles ≡ self.old.cycles }
        ensures ready { result ≡ None → IsReady self.new.cycles self.new.mcu }
        ensures rises { result ≡ None → self.old.mcu.devices.cycles + 1 ≤ self.new.mcu.devices.cycles }
        ensures faults { RisesOnly (result ≡ Some Cut.WriteFault) (K.faults out.old) (K.faults out.new) }
    {
        let turn = take_turn(&mut self.mcu, &mut self.wire, self.cycles);
        self.settle(turn.byte, turn.end, out)
    }

    /// Steps that ask nothing of the bus, at once: none or some, at most so many, and how many there were.
    fn hurry<K: Sink>(&mut self, most: u64, out: &mut K) -> (u64, Option<Cut>)
        requires ready { IsReady self.old.cycles self.old.mcu }
        requires limit { self.old.cycles ≤ 2 ^ 63 }
        ensures goes { Goes result.1 self.old.cycles self.old.mcu (told_of self.old.wire) self.new.mcu (told_of self.new.wire) (printing (K.written out.old) self.old.last) (printing (K.written out.new) self.new.last) }
        ensures wire { self.new.wire ≡ self.old.wire }
        ensures cycles { self.new.cycles ≡ self.old.cycles }
        ensures most { result.0 ≤ most }
        ensures ready { result.1 ≡ None → IsReady self.new.cycles self.new.mcu }
        ensures rises { self.old.mcu.devices.cycles ≤ self.new.mcu.devices.cycles }
        ensures faults { RisesOnly (result.1 ≡ Some Cut.WriteFault) (K.faults out.old) (K.faults out.new) }
    {
        let stretch = take_stretch(&mut self.mcu, self.cycles, most);
        (stretch.steps, self.settle(stretch.byte, stretch.end, out))
    }

    /// As many steps as are made between two sweeps of one thread, or fewer where the run is cut.
    fn advance<K: Sink>(&mut self, out: &mut K) -> Option<Cut>
        requires ready { IsReady self.old.cycles self.old.mcu }
        requires limit { self.old.cycles ≤ 2 ^ 63 }
        ensures goes { Goes result self.old.cycles self.old.mcu (told_of self.old.wire) self.new.mcu (told_of self.new.wire) (printing (K.written out.old) self.old.last) (printing (K.written out.new) self.new.last) }
        ensures keeps { Keeps self.old.wire self.new.wire }
        ensures cycles { self.new.cycles ≡ self.old.cycles }
        ensures ready { result ≡ None → IsReady self.new.cycles self.new.mcu }
        ensures rises { result ≡ None → self.old.mcu.devices.cycles + 1 ≤ self.new.mcu.devices.cycles }
        ensures faults { RisesOnly (result ≡ Some Cut.WriteFault) (K.faults out.old) (K.faults out.new) }
    {
        let mut left = STEPS;
        'steps: loop {
            match self.turn(out) {
                Some(cut) => return Some(cut),
                None => left -= 1,
            }
            let (steps, cut) = self.hurry(left, out);
            left -= steps;
            match cut {
                Some(cut) => return Some(cut),
                None if left == 0 => return None,
                None => {}
            }
        }
    }

    /// The whole of it, up to what cuts it.
    pub(crate) fn go<K: Sink>(&mut self, out: &mut K) -> Cut
        requires ready { IsReady self.old.cycles self.old.mcu }
        requires limit { self.old.cycles ≤ 2 ^ 63 }
        ensures goes { Goes (Some result) self.old.cycles self.old.mcu (told_of self.old.wire) self.new.mcu (told_of self.new.wire) (printing (K.written out.old) self.old.last) (printing (K.written out.new) self.new.last) }
        ensures keeps { Keeps self.old.wire self.new.wire }
        ensures faults { RisesOnly (result ≡ Cut.WriteFault) (K.faults out.old) (K.faults out.new) }
    {
        'steps: loop {
            match self.advance(out) {
                Some(cut) => return cut,
                None => {}
            }
        }
    }

    /// The whole of it, where no second thread serves the links: sweeps with their pass come between its steps.
    pub(crate) fn go_alone<K: Sink>(&mut self, links: &mut Pass<L>, out: &mut K) -> Cut
        requires ready { IsReady self.old.cycles self.old.mcu }
        requires limit { self.old.cycles ≤ 2 ^ 63 }
        requires turn { links.old.turn ≡ self.old.wire.turn }
        ensures goes { Goes (Some result) self.old.cycles self.old.mcu (told_of self.old.wire) self.new.mcu (told_of self.new.wire) (printing (K.written out.old) self.old.last) (printing (K.written out.new) self.new.last) }
        ensures keeps { Keeps self.old.wire self.new.wire }
        ensures quiet { Quiet links.old links.new }
        ensures faults { RisesOnly (result ≡ Cut.WriteFault) (K.faults out.old) (K.faults out.new) }
    {
        'steps: loop {
            match self.advance(out) {
                Some(cut) => return cut,
                None => self.wire.sweep(links),
            }
        }
    }
}
