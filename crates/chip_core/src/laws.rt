//! What follows from what a chip stands for, each the contract of an empty function.
ghost use Rattle.std.specs.Prelude.{◌≡◌, ◌<◌, ◌^◌, ◌/◌, ℕ, List, ◌∷◌, length, true};
ghost use Rattle.chip_sheet.specs.declared.event.ConnId.{ConnId};
ghost use Rattle.chip_sheet.specs.declared.event.LinkEntry.{LinkEntry};
ghost use Rattle.chip_sheet.specs.declared.event.Entry.TheVariants.{Rest};
ghost use Rattle.chip_sheet.specs.declared.socket.Due.TheVariants as due;
ghost use Rattle.chip_sheet.specs.Past.{Past};
ghost use Rattle.chip_sheet.specs.Life.{status};
ghost use Rattle.chip_sheet.specs.Streams.{Starts, is_open};
ghost use Rattle.chip_sheet.specs.LinkCalls.{due_at, fits};
ghost use Rattle.chip_sheet.specs.Legal.{Legal};
ghost use Rattle.chip_core.specs.declared.chip.Chip.{Chip};
ghost use Rattle.chip_core.specs.Chip.{Stands, Few, starts_of, stop_kept, fits_here, room_len, room_bytes, with_room};

use chip_links::laws;
use chip_parts::laws::{closed_is_empty, untouched_parts};

/// What happened is a history that the datasheet allows.
pub fn legal_of()
    ensures { (starts : Starts) (chip : Chip) (past : Past) → Stands starts chip past → Legal starts past }
{}

/// Where fewer than 2^60 entries came so far, the chip's counts leave room for one event more.
pub fn short_is_few()
    ensures { (starts : Starts) (chip : Chip) (past : Past) → Stands starts chip past → length past < 2 ^ 60 → Few chip }
{
    closed_is_empty();
}

/// A chip stands for a history with the starts of positions that it was made with.
pub fn starts_are()
    ensures { (starts : Starts) (chip : Chip) (past : Past) → Stands starts chip past → starts_of chip ≡ starts }
{}

/// A turn in which nothing happened changes nothing of a chip.
pub fn rest_stands()
    ensures { (starts : Starts) (chip : Chip) (past : Past) → Stands starts chip past → Stands starts chip (Rest ∷ past) }
{
    untouched_parts();
}

/// What fits by the chip's own fields is what fits after what happened.
pub fn fits_agrees()
    ensures { (starts : Starts) (chip : Chip) (past : Past) (n : ℕ) (what : LinkEntry) → n < 8 → Stands starts chip past → fits_here chip n what ≡ fits starts past n what }
{
    laws::fits_agrees();
}

/// Where bytes or datagrams are to be read the socket is open.
pub fn open_where_read()
    ensures read { (starts : Starts) (past : Past) (place : ℕ) (c : ConnId) → due_at starts past place ≡ due.Read c → is_open (status past (place / 2)) ≡ true }
    ensures read_away { (starts : Starts) (past : Past) (place : ℕ) (c : ConnId) → due_at starts past place ≡ due.ReadAway c → is_open (status past (place / 2)) ≡ true }
    ensures datagram { (starts : Starts) (past : Past) (place : ℕ) (c : ConnId) (port : ℕ) → due_at starts past place ≡ due.RecvFrom c port → is_open (status past (place / 2)) ≡ true }
{}

/// A chip whose room was lent and written stands for what it stood for: nothing but the bytes of the room has changed.
pub fn room_is_lent()
    ensures stands { (starts : Starts) (chip : Chip) (past : Past) (n : ℕ) (w : List ℕ) → n < 8 → length w ≡ room_len chip n → Stands starts chip past → Stands starts (with_room chip n w) past }
    ensures bytes { (chip : Chip) (n : ℕ) (w : List ℕ) → n < 8 → length w ≡ room_len chip n → room_bytes (with_room chip n w) n ≡ w }
    ensures len { (chip : Chip) (n m : ℕ) (w : List ℕ) → room_len (with_room chip n w) m ≡ room_len chip m }
    ensures stop { (chip : Chip) (n : ℕ) (w : List ℕ) → stop_kept (with_room chip n w) ≡ stop_kept chip }
    ensures few { (chip : Chip) (n : ℕ) (w : List ℕ) → Few chip → Few (with_room chip n w) }
{
    laws::room_is_lent();
}
