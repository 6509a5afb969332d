//! A law of the bytes in flight, the contract of an empty function.
ghost use Rattle.std.specs.Prelude.{◌≡◌, ◌<◌, ℕ, ◌+◌};
ghost use Rattle.chip_sheet.specs.Past.{Past};
ghost use Rattle.chip_sheet.specs.Streams.{Starts, tx_byte};
ghost use Rattle.chip_sheet.specs.Windows.{flight, first_in_flight};
ghost use Rattle.chip_sheet.specs.Legal.{Legal};
ghost use Rattle.chip_laws.specs.Present.{flight_byte};

/// In a legal history each byte in flight stands in the TX buffer at the place of its position, until the link takes it.
pub fn sent_stands()
    ensures { (starts : Starts) (past : Past) (n j : ℕ) → n < 8 → Legal starts past → j < flight starts past n
        → tx_byte past n (first_in_flight starts past n + j) ≡ flight_byte starts past n j }
{}
