//! Laws of the definitions, each the contract of a function that does nothing.
ghost use Rattle.avr_timer.specs.Laws.{NoTimeChangesNothing, TicksAddUp, SpansAddUp};

/// A law over the definitions alone: how a span of ticks is cut changes nothing, neither the counter nor its flags.
pub fn ticks_add_up()
    ensures { TicksAddUp }
{}

/// A law over the definitions alone: passing no cycles changes nothing.
pub fn no_time_changes_nothing()
    ensures { NoTimeChangesNothing }
{}

/// A law over the definitions alone: passing one span of cycles and then the next is passing both at once.
pub fn spans_add_up()
    ensures { SpansAddUp }
{}
