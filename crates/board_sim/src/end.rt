//! How a run ends, and what it leaves.
use avr_core::AvrStop;
use chip_hist::History;
use chip_sheet::stop::ChipStop;
use link_script::ScriptLinks;

/// How a run ends.
#[derive(Clone, Copy, Debug, PartialEq, Eq)]
pub enum RunEnd {
    /// At a `break`.
    Break,
    /// At a `sleep` from which nothing wakes the part.
    Sleep,
    /// At least as many cycles went by as the board allows.
    CycleLimit,
    /// The chip stopped.
    Chip(ChipStop),
    /// The firmware cannot go on.
    Avr(AvrStop),
    /// The history has reached its limit.
    TraceFull,
    /// The system's poll failed; only a live run ends so.
    PollFault,
    /// A call of the sink failed, and its count of faults rose.
    WriteFault,
    /// It ran out of memory.
    NoMemory,
}

/// What a scripted run leaves.
#[derive(Drop)]
pub struct SimEnd {
    /// What happened on the chip's bus and its links.
    pub history: History,
    /// The peers; `None` only where the end is `NoMemory`.
    pub links: Option<ScriptLinks>,
    /// How many cycles went by.
    pub cycles: u64,
    /// How the run ended.
    pub end: RunEnd,
}
