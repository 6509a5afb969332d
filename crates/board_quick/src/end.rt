//! How a command ends, and what it prints of a refusal.
ghost use Rattle.std.specs.Prelude.{◌≡◌, string_bytes, IfOk};
ghost use Rattle.board_quick.specs.Ends.{board_text, fault_text, hex_text, kind_text, script_kind_text, script_text, status_of};

use avr_core::AvrStop;
use board_file::BoardFault;
use board_gen::{ScriptFault, ScriptKind};
use board_judge::JudgeFault;
use chip_hist::history::History;
use chip_sheet::stop::ChipStop;
use ihex::{HexFault, HexKind};
use link_script::ScriptLinks;
use std::alloc::{AllocError, Global};

/// Why a command did not do what its words ask. Operands count from 1.
#[derive(Clone, Copy, Debug, PartialEq, Eq)]
pub enum Refusal {
    /// The words are no written form.
    Usage,
    /// There is no file of an operand's name.
    NoFile {
        /// Which operand it is.
        operand: u8,
    },
    /// The file of an operand could not be read.
    ReadFault {
        /// Which operand it is.
        operand: u8,
    },
    /// The file of an operand has more than [`TEXT_LIMIT`](crate::reading::TEXT_LIMIT) bytes.
    TooLong {
        /// Which operand it is.
        operand: u8,
    },
    /// The text is no Intel HEX image.
    Hex(HexFault),
    /// The text is no board file.
    Board(BoardFault),
    /// The text is no script, or a link event in it does not fit; or it is no trace.
    Script(ScriptFault),
    /// The history of a trace is one that the datasheet does not allow.
    Judged(JudgeFault),
}

/// How a command ended.
#[derive(Clone, Copy, Debug, PartialEq, Eq)]
pub enum EndKind {
    /// It finished.
    Done,
    /// The firmware came to a `break`.
    Break,
    /// The firmware came to a `sleep` from which nothing wakes it.
    Sleep,
    /// At least as many cycles went by as the board allows.
    CycleLimit,
    /// The chip answered a stop.
    Chip(ChipStop),
    /// The firmware cannot go on.
    Avr(AvrStop),
    /// The history has reached its limit.
    TraceFull,
    /// The system's poll failed; only a live run ends so.
    PollFault,
    /// A call of the sink failed, and its count of faults rose.
    WriteFault,
    /// It ran out of memory.
    NoMemory,
    /// It was refused.
    Refused(Refusal),
}

/// What a command leaves.
#[derive(Drop)]
pub struct QuickEnd {
    /// The exit status of the program, 0 to 20.
    pub status: u8,
    /// What happened on the chip's bus and its links, empty where the command made no event.
    pub history: History,
    /// The scripted peers of a `sim`, a `trace` or a `gen`, where they were made.
    pub script: Option<ScriptLinks>,
    /// How the command ended.
    pub end: EndKind,
    ghost status_of_end: { status ≡ status_of end },
}

/// The exit status of an end.
pub fn status_of(end: EndKind) -> u8
    ensures { result ≡ status_of end }
{
    match end {
        EndKind::Done | EndKind::Break | EndKind::Sleep => 0,
        EndKind::Refused(Refusal::Usage) => 2,
        EndKind::Refused(Refusal::Hex(_)) => 3,
        EndKind::Refused(Refusal::Board(_)) => 4,
        EndKind::Refused(Refusal::NoFile { .. } | Refusal::ReadFault { .. }) => 5,
        EndKind::WriteFault => 6,
        EndKind::NoMemory => 7,
        EndKind::TraceFull => 8,
        EndKind::PollFault => 9,
        EndKind::CycleLimit => 10,
        EndKind::Refused(Refusal::TooLong { .. }) => 11,
        EndKind::Refused(Refusal::Script(_)) => 14,
        EndKind::Refused(Refusal::Judged(_)) => 15,
        EndKind::Chip(_) | EndKind::Avr(_) => 20,
    }
}

/// The line of words that are no written form.
pub const USAGE: &str = "fault usage\n";

/// The line that a refusal prints. That of a judged trace is printed as its verdict, and nothing here.
///
/// # Errors
///
/// Out of memory alone.
pub fn fault_text(alloc: Global, refusal: Refusal) -> Result<String, AllocError>
    ensures { IfOk result (λ t. string_bytes t ≡ fault_text refusal) }
{
    match refusal {
        Refusal::Usage => String::from_str(alloc, USAGE),
        Refusal::NoFile { operand } => format!(in alloc; "fault nofile {operand}\n"),
        Refusal::ReadFault { operand } => format!(in alloc; "fault read {operand}\n"),
        Refusal::TooLong { operand } => format!(in alloc; "fault long {operand}\n"),
        Refusal::Hex(fault) => hex_text(alloc, fault),
        Refusal::Board(fault) => board_text(alloc, fault),
        Refusal::Script(fault) => script_text(alloc, fault),
        Refusal::Judged(_) => Ok(String::new(alloc)),
    }
}

/// The name of a kind of fault.
fn kind_text(kind: HexKind) -> &'static str
    ensures { result.now ≡ kind_text kind }
{
    match kind {
        HexKind::AfterEnd => "AfterEnd",
        HexKind::BadStart => "BadStart",
        HexKind::BadDigit => "BadDigit",
        HexKind::BadLength => "BadLength",
        HexKind::BadSum => "BadSum",
        HexKind::BadType => "BadType",
        HexKind::OutOfFlash => "OutOfFlash",
        HexKind::NoEnd => "NoEnd",
    }
}

/// The line that the fault of an image's text prints.
fn hex_text(alloc: Global, fault: HexFault) -> Result<String, AllocError>
    ensures { IfOk result (λ t. string_bytes t ≡ hex_text fault) }
{
    let kind = kind_text(fault.kind);
    let line = fault.line;
    format!(in alloc; "fault hex {kind} {line}\n")
}

/// The line that the fault of a board's text prints.
fn board_text(alloc: Global, fault: BoardFault) -> Result<String, AllocError>
    ensures { IfOk result (λ t. string_bytes t ≡ board_text fault) }
{
    let key = fault.key.word();
    let entry = fault.entry;
    let kind = fault.kind.word();
    format!(in alloc; "fault board {key} {entry} {kind}\n")
}

/// The name of a kind of fault of a script.
fn script_kind_text(kind: ScriptKind) -> &'static str
    ensures { result.now ≡ script_kind_text kind }
{
    match kind {
        ScriptKind::BadHead => "BadHead",
        ScriptKind::BadToken => "BadToken",
        ScriptKind::NotDue => "NotDue",
    }
}

/// The line that the fault of a script prints.
fn script_text(alloc: Global, fault: ScriptFault) -> Result<String, AllocError>
    ensures { IfOk result (λ t. string_bytes t ≡ script_text fault) }
{
    let kind = script_kind_text(fault.kind);
    let line = fault.line;
    format!(in alloc; "fault script {kind} {line}\n")
}
