//! The steps of the registers are those of the datasheet's table over a history.

ghost use Rattle.std.specs.Prelude.{◌≡◌, ◌∷◌, [], ℕ};
ghost use Rattle.board_bus.specs.declared.event.BusAnswer.{BusAnswer};
ghost use Rattle.board_bus.specs.declared.event.BusEvent.{BusEvent};
ghost use Rattle.chip_sheet.specs.declared.event.Entry.TheVariants.{Bus};
ghost use Rattle.chip_sheet.specs.declared.phase.Access.TheVariants.{Write};
ghost use Rattle.chip_sheet.specs.Past.{Past};
ghost use Rattle.chip_sheet.specs.Frames.{access};
ghost use Rattle.chip_sheet.specs.Registers.{common_register};
ghost use Rattle.chip_sheet.specs.Answers.{common_byte};
ghost use Rattle.chip_sheet.specs.Interrupts.{sir_register};
ghost use Rattle.chip_sheet.specs.Streams.{Starts};
ghost use Rattle.common_regs.specs.Places.{reset_value, after_write, read_at};

/// At power-on each place reads its reset value, a write of a byte makes of the places what it makes of them in a history, and a
/// read gives what the whole chip's definition says.
pub fn follows_the_table()
    ensures fresh { (at : ℕ) → reset_value at ≡ common_register [] at }
    ensures write { (past : Past) (e : BusEvent) (a : BusAnswer) (addr v at : ℕ) → access past e ≡ Write 0 addr v
        → after_write addr v (common_register past) at ≡ common_register (Bus e a ∷ past) at }
    ensures read { (starts : Starts) (past : Past) (addr : ℕ) → read_at (common_register past) (sir_register starts past) addr ≡ common_byte starts past addr }
{}
