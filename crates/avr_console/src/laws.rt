//! Laws of the definitions, each the contract of a function that does nothing.
ghost use Rattle.avr_console.specs.Laws.{FramesArrive, HearsAll};

/// What was heard, what waits, and what is still to come are the console's bytes, in order.
pub fn hears_all()
    ensures { HearsAll }
{}

/// The first byte arrives a frame time after the receiver goes on, the second a frame time later, and no further one without a
/// reading.
pub fn frames_arrive()
    ensures { FramesArrive }
{}
