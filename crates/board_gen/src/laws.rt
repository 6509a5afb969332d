//! Laws of the format, each the contract of an empty function.

ghost use Rattle.board_gen.specs.Faults.{FaultsAreFirst, ReadsEachLine};
ghost use Rattle.board_gen.specs.Replayed.{LinesAreTold};

/// A fault is at the first line with a text that is no token.
pub fn fault_is_the_first()
    ensures { FaultsAreFirst }
{}

/// Where a script is read, the steps of each line are those of its tokens.
pub fn reads_each_line()
    ensures { ReadsEachLine }
{}

/// The history of lines that run, and their end, are those of all of their steps one after another, up to the first that has a
/// stop or does not fit.
pub fn lines_are_told()
    ensures { LinesAreTold }
{}
