//! A law of what the chip answers, the contract of an empty function.
ghost use Rattle.std.specs.Prelude.{◌≡◌, ℕ, true, false};
ghost use Rattle.board_bus.specs.declared.event.BusEvent.TheVariants.{Byte};
ghost use Rattle.board_bus.specs.declared.event.BusAnswer.TheVariants.{Out};
ghost use Rattle.chip_sheet.specs.declared.phase.Access.TheVariants.{NoAccess};
ghost use Rattle.chip_sheet.specs.Past.{Past};
ghost use Rattle.chip_sheet.specs.Frames.{access, is_low};
ghost use Rattle.chip_sheet.specs.Streams.{Starts};
ghost use Rattle.chip_sheet.specs.Answers.{answer};

/// A byte that makes no access is answered FF while the select line is high, and 00 while it is low.
pub fn idle_answer()
    ensures high { (starts : Starts) (past : Past) (v : ℕ) → access past (Byte v) ≡ NoAccess → is_low past ≡ false → answer starts past (Byte v) ≡ Out 0xFF }
    ensures low { (starts : Starts) (past : Past) (v : ℕ) → access past (Byte v) ≡ NoAccess → is_low past ≡ true → answer starts past (Byte v) ≡ Out 0x00 }
{}
