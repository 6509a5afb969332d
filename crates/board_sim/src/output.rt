//! What a run prints: the bytes of its firmware, each at once, and its report.
ghost use Rattle.std.specs.Prelude.{◌≡◌, ℕ, Some, IsErr, OnErr, OnOk};
ghost use Rattle.wz_base.specs.Outside.{RisesOnly};
ghost use Rattle.wz_base.specs.Whole.{Appends};
ghost use Rattle.chip_core.specs.Chip.{Stands};
ghost use Rattle.chip_sheet.specs.Streams.{Starts};
ghost use Rattle.avr_mcu.specs.Run.{byte_of};
ghost use Rattle.board_sim.specs.Finishing.{Reports};
ghost use Rattle.board_sim.specs.Report.{report_of};

use crate::end::RunEnd;
use crate::report::report;
use avr_mcu::Mcu;
use chip_core::Chip;
use chip_hist::History;
use std::alloc::{AllocError, Global};
use wz_base::{Failed, Sink, WriteError, write_all};

/// Writes a byte, if there is one, at once.
pub fn put<K: Sink>(out: &mut K, byte: Option<u8>) -> Result<(), Failed>
    ensures ok { OnOk result (Appends (K.written out.old) (byte_of byte) (K.written out.new)) }
    ensures err { OnErr result (K.written out.new ≡ K.written out.old) }
    ensures byte { OnErr result ((v : ℕ) × (byte ≡ Some v)) }
    ensures faults { RisesOnly (IsErr result) (K.faults out.old) (K.faults out.new) }
{
    match byte {
        Some(byte) => match out.write(&[byte]) {
            Ok(_) => Ok(()),
            Err(failed) => Err(failed),
        },
        None => Ok(()),
    }
}

/// Writes the report of a run that ended so.
pub fn write_report<K: Sink>(
    alloc: Global,
    chip: &Chip,
    history: &History,
    mcu: &Mcu,
    last: Option<u8>,
    end: RunEnd,
    out: &mut K,
) -> RunEnd
    requires { end ≡ RunEnd.WriteFault → ⊥ }
    ensures reports { (starts : Starts) → Stands starts chip.now history.now.past
        → Reports end (report_of starts history.now.past last mcu.now.devices.cycles mcu.now.trail end) result (K.written out.old) (K.written out.new) }
    ensures faults { RisesOnly (result ≡ RunEnd.WriteFault) (K.faults out.old) (K.faults out.new) }
{
    match report(alloc, chip, history, mcu, last, end) {
        Ok(text) => match write_all(out, text.as_bytes()) {
            Ok(()) => end,
            Err(WriteError::WriteFault) => RunEnd::WriteFault,
        },
        Err(AllocError) => RunEnd::NoMemory,
    }
}
