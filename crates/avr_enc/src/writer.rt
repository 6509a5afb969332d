//! Instructions into text.
ghost use Rattle.std.specs.Prelude.{◌≡◌, OnErr, OnOk, IsErr};
ghost use Rattle.wz_base.specs.Outside.{RisesOnly};
ghost use Rattle.wz_base.specs.Whole.{Appends, AppendsFront};
ghost use Rattle.avr_enc.specs.Text.{text_of};

use crate::line::Line;
use crate::syntax::syntax_of;
use avr_table::Instr;
use wz_base::{Sink, WriteError, write_all};

/// The instruction's text, without a line end: its mnemonic and its operands.
pub fn line_of(instr: &Instr) -> Line
    ensures { result ≡ text_of instr.now }
{
    Line::of(&syntax_of(instr))
}

/// Writes the instruction's text, without a line end: its mnemonic and its operands.
///
/// # Errors
/// `WriteFault` only where the sink's count of faults rose. A prefix of the text was then written.
pub fn text<K: Sink>(instr: &Instr, out: &mut K) -> Result<(), WriteError>
    ensures ok { OnOk result (Appends (K.written out.old) (text_of instr.now) (K.written out.new)) }
    ensures err { OnErr result (AppendsFront (K.written out.old) (text_of instr.now) (K.written out.new)) }
    ensures faults { RisesOnly (IsErr result) (K.faults out.old) (K.faults out.new) }
{
    let line = line_of(instr);
    write_all(out, line.as_bytes())
}
