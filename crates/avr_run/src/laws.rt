//! Laws of the definitions, each the contract of a function that does nothing.
ghost use Rattle.avr_run.specs.Steps.{StretchGoesFrom};
ghost use Rattle.avr_run.specs.Told.{RunBegins};

/// Before its first step a run has come to nothing yet.
pub fn run_begins()
    ensures { RunBegins }
{}

/// The steps of a stretch can be told from the first one on, as a loop over single steps makes them.
pub fn stretch_goes_from()
    ensures { StretchGoesFrom }
{}
