//! Laws of the definitions, each the contract of a function that does nothing.
ghost use Rattle.avr_ports.specs.Laws.{FlagsRiseAtEdges, OneBitAlone, OtherFlagsStay, StillPinsRaiseNothing};

/// A flag of EIFR or PCIFR that is clear rises at a write, an `sbi`, a `cbi` or a change of INTn exactly where the level of its
/// pin before and the level after are such an edge.
pub fn flags_rise_at_edges()
    ensures { FlagsRiseAtEdges }
{}

/// A call that changes the level of no pin raises no flag.
pub fn still_pins_raise_nothing()
    ensures { StillPinsRaiseNothing }
{}

/// `sbi` and `cbi` change no other bit of any register.
pub fn one_bit_alone()
    ensures { OneBitAlone }
{}

/// `sbi` and `cbi` clear no flag but the one that `sbi` writes a 1 to.
pub fn other_flags_stay()
    ensures { OtherFlagsStay }
{}
