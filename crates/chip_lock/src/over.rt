//! Why turns end.
ghost use Rattle.std.specs.Prelude.{◌≡◌};
ghost use Rattle.chip_lock.specs.Overs.{over_by};

use chip_shared::shared::StepEnd;
use chip_sheet::event::BusEvent;
use chip_sheet::stop::ChipStop;

/// Why turns have ended.
#[derive(Clone, Copy, Debug, PartialEq, Eq)]
pub enum Over {
    /// The board stopped.
    Stopped(ChipStop),
    /// The history reached its limit.
    TraceFull,
    /// There was no memory for one more event.
    NoMemory,
    /// A wait for readiness failed.
    PollFault,
    /// The run was over.
    Finished,
}

/// A stop that a turn found, as contracts see it. No value of it is made.
pub struct Found {
    /// How many entries the history had before that turn.
    pub place: u64,
    /// The event that was asked.
    pub event: BusEvent,
    /// The stop that it has there.
    pub stop: ChipStop,
}

/// The cause that a refused step gives.
pub(crate) fn over_by(end: StepEnd) -> Over
    ensures { result ≡ over_by end }
{
    match end {
        StepEnd::Stopped(stop) => Over::Stopped(stop),
        StepEnd::TraceFull => Over::TraceFull,
        StepEnd::NoMemory => Over::NoMemory,
    }
}
