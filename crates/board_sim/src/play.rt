//! A run under way: the microcontroller with the board, step by step, up to what ends it.
ghost use Rattle.std.specs.Prelude.{◌≡◌, ◌⊎◌, ◌<◌, ◌≤◌, ◌+◌, ◌^◌, ℕ, false, [], None, Some, IsErr, OnErr, OnOk};
ghost use Rattle.wz_base.specs.Outside.{RisesOnly};
ghost use Rattle.wz_base.specs.Whole.{Appends};
ghost use Rattle.avr_mcu.specs.Run.{byte_of};
ghost use Rattle.board_sim.specs.Playing.{printing, Goes, IsReady, Prints, Settles};
ghost use Rattle.board_sim.specs.Seats.{seen, wanted_of, IsWell};
ghost use Rattle.avr_run.specs.Told.{EndWants};
ghost use Rattle.avr_mcu.specs.declared.run.RunEnd as firmware;

use crate::output::put;
use crate::peer::{BoardPeer, SWEEP_STEPS};
use avr_mcu::Mcu;
use avr_run::{RunEnd as FirmwareEnd, take_stretch, take_turn};
use chip_shared::shared::StepEnd;
use wz_base::Sink;

/// What cuts a run.
#[derive(Clone, Copy, Debug, PartialEq, Eq)]
pub enum Cut {
    /// Its last step ended it.
    Step(FirmwareEnd),
    /// The history was full at a link step.
    TraceFull,
    /// A printed byte could not be written.
    WriteFault,
    /// It ran out of memory.
    NoMemory,
}

/// A run under way.
#[derive(Drop)]
pub struct Play {
    /// The microcontroller.
    pub(crate) mcu: Mcu,
    /// The chip with its peers.
    pub(crate) board: BoardPeer,
    /// How many cycles it may take.
    pub(crate) cycles: u64,
    /// The last byte that it printed.
    pub(crate) last: Option<u8>,
}

impl Play {
    /// Whether memory was missing at an event.
    fn is_out_of_memory(&self) -> bool
        ensures { result ≡ false → IsWell self.now.board }
    {
        match self.board.unanswered() {
            Some(unanswered) => unanswered.end == StepEnd::NoMemory,
            None => false,
        }
    }

    /// Behind the events of a step, or of steps that asked nothing: counts the instructions, writes the byte, and takes the end
    /// of the run or makes the sweep that is due.
    fn settle<K: Sink>(
        &mut self,
        instructions: u64,
        byte: Option<u8>,
        end: Option<FirmwareEnd>,
        out: &mut K,
    ) -> Option<Cut>
        requires steps { IsWell self.old.board → self.old.board.steps + instructions < 2 ^ 64 }
        requires unrefused { end ≡ None → self.old.board.refused ≡ None }
        requires wants { (e : firmware.RunEnd) → end ≡ Some e → EndWants e (wanted_of self.old.board.refused) }
        ensures settles { Settles (seen self.old.board) instructions byte end result (seen self.new.board) (printing (K.written out.old) self.old.last) (printing (K.written out.new) self.new.last) }
        ensures mcu { self.new.mcu ≡ self.old.mcu }
        ensures cycles { self.new.cycles ≡ self.old.cycles }
        ensures starts { self.new.board.now.starts ≡ self.old.board.now.starts }
        ensures well { IsWell self.old.board ⊎ ((result ≡ Some Cut.NoMemory) × Prints (printing (K.written out.old) self.old.last) [] (printing (K.written out.new) self.new.last)) }
        ensures bytes { result ≡ None → self.new.board.bytes < 8 }
        ensures steps { result ≡ None → self.new.board.steps < 1024 }
        ensures unrefused { result ≡ None → self.new.board.refused ≡ None }
        ensures wants { (e : firmware.RunEnd) → result ≡ Some (Cut.Step e) → EndWants e (wanted_of self.new.board.refused) }
        ensures faults { RisesOnly (result ≡ Some Cut.WriteFault) (K.faults out.old) (K.faults out.new) }
    {
        if self.is_out_of_memory() {
            return Some(Cut::NoMemory);
        }
        self.board.count(instructions);
        match put(out, byte) {
            Ok(()) => {}
            Err(_) => return Some(Cut::WriteFault),
        }
        if let Some(byte) = byte {
            self.last = Some(byte);
        }
        match end {
            Some(end) => Some(Cut::Step(end)),
            None => match self.board.rest() {
                Ok(()) => None,
                Err(StepEnd::TraceFull) => Some(Cut::TraceFull),
                Err(StepEnd::NoMemory) => Some(Cut::NoMemory),
                Err(StepEnd::Stopped(_)) => unreachable!(),
            },
        }
    }

    /// One step.
    fn turn<K: Sink>(&mut self, out: &mut K) -> Option<Cut>
        requires ready { IsReady self.old.cycles self.old.mcu (seen self.old.board) }
        requires limit { self.old.cycles ≤ 2 ^ 63 }
        ensures goes { Goes result self.old.cycles self.old.mcu (seen self.old.board) self.new.mcu (seen self.new.board) (printing (K.written out.old) self.old.last) (printing (K.written out.new) self.new.last) }
        ensures ready { result ≡ None → IsReady self.new.cycles self.new.mcu (seen self.new.board) }
        ensures cycles { self.new.cycles ≡ self.old.cycles }
        ensures starts { self.new.board.now.starts ≡ self.old.board.now.starts }
        ensures rises { result ≡ None → self.old.mcu.devices.cycles + 1 ≤ self.new.mcu.devices.cycles }
        ensures wants { (e : firmware.RunEnd) → result ≡ Some (Cut.Step e) → EndWants e (wanted_of self.new.board.refused) }
        ensures faults { RisesOnly (result ≡ Some Cut.WriteFault) (K.faults out.old) (K.faults out.new) }
    {
        let turn = take_turn(&mut self.mcu, &mut self.board, self.cycles);
        self.settle(turn.instructions(), turn.byte, turn.end, out)
    }

    /// Steps that ask nothing of the bus, at once: none or some, and no sweep is due between them.
    fn hurry<K: Sink>(&mut self, out: &mut K) -> Option<Cut>
        requires ready { IsReady self.old.cycles self.old.mcu (seen self.old.board) }
        requires limit { self.old.cycles ≤ 2 ^ 63 }
        ensures goes { Goes result self.old.cycles self.old.mcu (seen self.old.board) self.new.mcu (seen self.new.board) (printing (K.written out.old) self.old.last) (printing (K.written out.new) self.new.last) }
        ensures ready { result ≡ None → IsReady self.new.cycles self.new.mcu (seen self.new.board) }
        ensures cycles { self.new.cycles ≡ self.old.cycles }
        ensures starts { self.new.board.now.starts ≡ self.old.board.now.starts }
        ensures rises { result ≡ None → self.old.mcu.devices.cycles ≤ self.new.mcu.devices.cycles }
        ensures wants { (e : firmware.RunEnd) → result ≡ Some (Cut.Step e) → EndWants e (wanted_of self.new.board.refused) }
        ensures faults { RisesOnly (result ≡ Some Cut.WriteFault) (K.faults out.old) (K.faults out.new) }
    {
        let most = SWEEP_STEPS - self.board.steps();
        let stretch = take_stretch(&mut self.mcu, self.cycles, most);
        if stretch.steps == 0 {
            return None;
        }
        self.settle(stretch.steps, stretch.byte, stretch.end, out)
    }

    /// The whole run, up to what cuts it.
    pub(crate) fn go<K: Sink>(&mut self, out: &mut K) -> Cut
        requires ready { IsReady self.old.cycles self.old.mcu (seen self.old.board) }
        requires limit { self.old.cycles ≤ 2 ^ 63 }
        ensures goes { Goes (Some result) self.old.cycles self.old.mcu (seen self.old.board) self.new.mcu (seen self.new.board) (printing (K.written out.old) self.old.last) (printing (K.written out.new) self.new.last) }
        ensures cycles { self.new.cycles ≡ self.old.cycles }
        ensures starts { self.new.board.now.starts ≡ self.old.board.now.starts }
        ensures wants { (e : firmware.RunEnd) → result ≡ Cut.Step e → EndWants e (wanted_of self.new.board.refused) }
        ensures faults { RisesOnly (result ≡ Cut.WriteFault) (K.faults out.old) (K.faults out.new) }
    {
        'steps: loop {
            match self.turn(out) {
                Some(cut) => return cut,
                None => {}
            }
            match self.hurry(out) {
                Some(cut) => return cut,
                None => {}
            }
        }
    }
}
