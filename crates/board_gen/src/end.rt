//! How a script ends.
use crate::fault::ScriptFault;
use chip_hist::history::History;
use chip_sheet::stop::ChipStop;

/// Why a script goes no further.
#[derive(Clone, Copy, Debug, PartialEq, Eq)]
pub enum ScriptStop {
    /// All of its steps were taken.
    Done,
    /// The text is no script, and nothing ran; or a link event does not fit.
    Fault(ScriptFault),
    /// The chip answered a stop.
    Chip(ChipStop),
    /// A call of the sink failed, and its count of faults rose.
    WriteFault,
    /// Memory was not there.
    NoMemory,
}

/// What a script leaves.
#[derive(Drop)]
pub struct ScriptEnd {
    /// What happened on the chip's bus and its links.
    pub history: History,
    /// Why it goes no further.
    pub end: ScriptStop,
}
