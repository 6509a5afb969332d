//! Laws of the parts, each the contract of an empty function.
ghost use Rattle.std.specs.Prelude.{◌≡◌, ◌∷◌, false};
ghost use Rattle.chip_sheet.specs.declared.event.Entry.{Entry};
ghost use Rattle.chip_sheet.specs.Past.{Past};
ghost use Rattle.chip_sheet.specs.Frames.{access_of};
ghost use Rattle.chip_sheet.specs.Streams.{Starts};
ghost use Rattle.chip_sheet.specs.Quiet.{writes_to};
ghost use Rattle.chip_parts.specs.declared.parts.Parts.{Parts};
ghost use Rattle.chip_parts.specs.Holding.{Holds, AllUntouched, ClosedIsEmpty};

/// Parts that stand for a past stand for it with an entry that touches no socket and writes no common register: a byte that is
/// read, a byte of an address or control phase, a look, a change of the select line, a byte to an RX buffer, a turn in which
/// nothing happened.
pub fn untouched_parts()
    ensures { (starts : Starts) (past : Past) (entry : Entry) (parts : Parts) → Holds starts parts past → writes_to (access_of past entry) 0 ≡ false → AllUntouched past entry
        → Holds starts parts (entry ∷ past) }
{}

/// In parts that stand for a past nothing is in flight of a socket that is closed, and nothing is unread.
pub fn closed_is_empty()
    ensures { (starts : Starts) (past : Past) (parts : Parts) → Holds starts parts past → ClosedIsEmpty parts }
{}
