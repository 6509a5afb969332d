//! Laws of the microcontroller's definitions, each the contract of a function that does nothing.
#![tactic(auto)]

ghost use Rattle.avr_mcu_laws.specs.Ends.{AnswersAreUsed, LimitIsReached};
ghost use Rattle.avr_mcu_laws.specs.Lowest.{LowestVectorFirst};
ghost use Rattle.avr_mcu_laws.specs.Over.{OverOnlyAsSaid};
ghost use Rattle.avr_mcu_laws.specs.Wanted.{OverOnlyWhereWanted};

/// Over any peer a step says that the bus is over exactly behind an answer of the peer that says so, after which it asks nothing
/// more.
pub fn over_only_as_said()
    ensures { OverOnlyAsSaid }
{}

/// On any list of answers a step says that the bus is over exactly where it wanted an answer after the last.
pub fn over_only_where_wanted()
    ensures { OverOnlyWhereWanted }
{}

/// Of the vectors that the devices request, the one with the lowest address is pending (ATmega328P datasheet, "Reset
/// and Interrupt Handling"); where a vector is requested, one is pending, and what is pending is requested.
pub fn lowest_vector_first()
    ensures { LowestVectorFirst }
{}

/// Where a run on given answers ends by its limit, the count of cycles has come to the limit. Where it ends by a call for
/// which no answer is left, every answer was used.
pub fn ends_by_their_causes()
    ensures limit { LimitIsReached }
    ensures answers { AnswersAreUsed }
{}
