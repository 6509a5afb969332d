//! How a trace is judged.
use board_gen::ScriptFault;
use chip_hist::history::History;
use chip_sheet::stop::ChipStop;

/// The first place of a history that the datasheet does not allow. Places count from 0.
#[derive(Clone, Copy, Debug, PartialEq, Eq)]
pub enum JudgeFault {
    /// The chip answers an event of the bus otherwise. A level of the interrupt line is 0 or 1.
    Differs {
        /// The place of the event.
        place: u64,
        /// What the chip answers.
        expected: u8,
        /// What stands in the trace.
        found: u8,
    },
    /// A link event does not fit.
    Unfit {
        /// The place of the event.
        place: u64,
    },
    /// An event of the bus has a stop.
    Stops {
        /// The place of the event.
        place: u64,
        /// The stop.
        stop: ChipStop,
    },
}

/// Why a trace is judged no further.
#[derive(Clone, Copy, Debug, PartialEq, Eq)]
pub enum JudgeStop {
    /// The history is one that the datasheet allows.
    Done,
    /// The text is no trace, and nothing was judged.
    Fault(ScriptFault),
    /// The history is one that the datasheet does not allow.
    Judged(JudgeFault),
    /// A call of the sink failed, and its count of faults rose.
    WriteFault,
    /// Memory was not there.
    NoMemory,
}

/// What a judged trace leaves.
#[derive(Drop)]
pub struct JudgeEnd {
    /// The history up to the first place that is not allowed.
    pub history: History,
    /// Why it is judged no further.
    pub end: JudgeStop,
}
