//! Laws of the definitions, each the contract of a function that does nothing.
ghost use Rattle.avr_sheet.specs.Laws.{OneBitChanges, BitsMakeByte};

/// A byte with one bit set or cleared has that bit as given, and each other bit as it was.
pub fn one_bit_changes()
    ensures { OneBitChanges }
{}

/// A byte is the sum of its bits' weights.
pub fn bits_make_byte()
    ensures { BitsMakeByte }
{}
