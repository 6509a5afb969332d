//! A law of the bytes that the link supplies, the contract of an empty function.
ghost use Rattle.std.specs.Prelude.{◌≡◌, ℕ, List, ◌++◌, true};
ghost use Rattle.chip_sheet.specs.Past.{Past};
ghost use Rattle.chip_sheet.specs.Streams.{Starts, is_made, supplied, got};
ghost use Rattle.chip_sheet.specs.Legal.{Legal};

/// In a legal history the bytes that were received on a connection are a front of all bytes that the link supplied on it. (In UDP
/// the received bytes have headers, and datagrams that did not fit are missing.)
pub fn received_within_supplied()
    ensures { (starts : Starts) (past : Past) (n life : ℕ) → Legal starts past → is_made past n life ≡ true → (more : List ℕ) × (supplied past n life ≡ got starts past n life ++ more) }
{}
