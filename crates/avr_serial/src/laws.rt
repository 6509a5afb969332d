//! Laws of the definitions, each the contract of a function that does nothing.
ghost use Rattle.avr_serial.specs.Laws.{EndsAfterEightPeriods, FramesFollow, PassesInParts};

/// A span that is passed in two parts leaves what passing it at once leaves.
pub fn passes_in_parts()
    ensures { PassesInParts }
{}

/// SPIF is set and the received byte shows from the end of the eighth SCK period on, and not before.
pub fn ends_after_eight_periods()
    ensures { EndsAfterEightPeriods }
{}

/// A byte that waits enters the shifter when the frame before it ends, and TXC is set when its own frame ends.
pub fn frames_follow()
    ensures { FramesFollow }
{}
