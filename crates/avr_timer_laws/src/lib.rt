//! Laws of the timers' definitions, each the contract of a function that does nothing.
#![tactic(auto)]

ghost use Rattle.avr_timer_laws.specs.Single.{SingleTicks8, SingleTicks16};

/// What timers 0 and 2 hold after any number of ticks is what so many single ticks make of them, each by the datasheet's table
/// of modes: what the counter becomes, and which flags rise.
pub fn narrow_timers_go_by_single_ticks()
    ensures { SingleTicks8 }
{}

/// The same of timer 1.
pub fn wide_timer_goes_by_single_ticks()
    ensures { SingleTicks16 }
{}
