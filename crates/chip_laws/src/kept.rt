//! A law of what becomes of a connection, the contract of an empty function.
ghost use Rattle.std.specs.Prelude.{◌≡◌, ◌⊎◌, ℕ, Some, true};
ghost use Rattle.chip_sheet.specs.Past.{Past};
ghost use Rattle.chip_sheet.specs.Life.{old};
ghost use Rattle.chip_sheet.specs.Streams.{Starts, is_made};
ghost use Rattle.chip_sheet.specs.Connections.{is_dropped};
ghost use Rattle.chip_sheet.specs.Legal.{Legal};
ghost use Rattle.chip_laws.specs.Present.{IsPresent};

/// In a legal history a connection that was made is the present one of its socket, which is not closed; or the one that the link
/// is still to forget; or the link forgot it.
pub fn made_is_kept()
    ensures { (starts : Starts) (past : Past) (n life : ℕ) → Legal starts past → is_made past n life ≡ true
        → IsPresent past n life ⊎ ((old past n ≡ Some life) ⊎ (is_dropped past n life ≡ true)) }
{}
