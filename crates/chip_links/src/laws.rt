//! Laws of the link side of the chip, each the contract of an empty function.
ghost use Rattle.std.specs.Prelude.{◌≡◌, ◌<◌, ℕ, List, length};
ghost use Rattle.chip_sheet.specs.declared.event.LinkEntry.{LinkEntry};
ghost use Rattle.chip_sheet.specs.Past.{Past};
ghost use Rattle.chip_sheet.specs.Streams.{Starts};
ghost use Rattle.chip_sheet.specs.LinkCalls.{fits};
ghost use Rattle.ring_mem.specs.Buffers.{room_len};
ghost use Rattle.chip_parts.specs.declared.parts.Parts.{Parts};
ghost use Rattle.chip_parts.specs.Holding.{Holds};
ghost use Rattle.chip_links.specs.Fitting.{fits_here};
ghost use Rattle.chip_links.specs.Lent.{room_bytes, with_room};

/// A link event fits by the fields of parts that stand for a past exactly where it fits after that past.
pub fn fits_agrees()
    ensures { (starts : Starts) (past : Past) (parts : Parts) (n : ℕ) (what : LinkEntry) → n < 8 → Holds starts parts past → fits_here parts n what ≡ fits starts past n what }
{}

/// A write into the room of a socket that was lent leaves what the parts stand for, and the room then has what was written.
pub fn room_is_lent()
    ensures holds { (starts : Starts) (past : Past) (parts : Parts) (n : ℕ) (w : List ℕ) → n < 8 → Holds starts parts past → length w ≡ room_len parts.rings n
        → Holds starts (with_room parts n w) past }
    ensures bytes { (parts : Parts) (n : ℕ) (w : List ℕ) → n < 8 → length w ≡ room_len parts.rings n → room_bytes (with_room parts n w) n ≡ w }
{}
