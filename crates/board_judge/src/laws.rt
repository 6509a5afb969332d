//! Laws of the format and of verdicts, each the contract of an empty function.
ghost use Rattle.board_judge.specs.Laws.{FaultsAreFirst, LegalsAreDone, ReadsEachLine, VerdictsHold};

/// A fault of the text is at the first line that is no entry.
pub fn fault_is_the_first()
    ensures { FaultsAreFirst }
{}

/// Where a trace is read, each entry is that of its line.
pub fn reads_each_line()
    ensures { ReadsEachLine }
{}

/// A verdict is `legal` exactly where the datasheet allows the whole history, and else names the first place that it does not
/// allow: all before it is allowed, and what stands there is not.
pub fn verdicts_hold()
    ensures verdicts { VerdictsHold }
    ensures legal { LegalsAreDone }
{}
