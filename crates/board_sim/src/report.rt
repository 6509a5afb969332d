//! The report of a run, which stands behind the bytes that the firmware printed.
ghost use Rattle.std.specs.Prelude.{◌≡◌, ◌≤◌, ◌++◌, take, count_by, if◌then◌else◌, IfOk, OnOk, string_bytes};
ghost use Rattle.std.specs.List.{flat_map};
ghost use Rattle.chip_core.specs.Chip.{Stands};
ghost use Rattle.chip_sheet.specs.Past.{Past, entry_of};
ghost use Rattle.chip_sheet.specs.Streams.{Starts};
ghost use Rattle.board_sim.specs.Report.{address_text, end_line, is_bus, is_failed, is_link, kind_text, line_end, number_line, report_of, socket_text, sockets_text, status_text, tally_text, trail_text};

use crate::end::RunEnd;
use avr_mcu::Mcu;
use board_text::firmware::firmware_text;
use board_text::stops::stop_text;
use chip_core::{Chip, Tally};
use chip_hist::History;
use chip_sheet::event::{Event, LinkWhat};
use std::alloc::{AllocError, Global};

/// How many sockets the chip has.
const SOCKETS: u8 = 8;

/// How many addresses of the last instructions are kept.
const KEPT: u8 = 16;

/// How many events of a kind a history has.
#[derive(Clone, Copy)]
struct Counts {
    /// Events of the bus.
    bus: u64,
    /// Events of the links; a turn in which nothing happened is none.
    link: u64,
    /// Links that failed.
    faults: u64,
}

// Adds a line feed behind a last byte other than that.
fn push_line_end(text: &mut String, last: Option<u8>) -> Result<(), AllocError>
    ensures { OnOk result (string_bytes text.new ≡ string_bytes text.old ++ line_end last) }
{
    match last {
        None | Some(b'\n') => Ok(()),
        Some(_) => text.push_str("\n"),
    }
}

// How a run ended.
fn kind_text(alloc: Global, end: RunEnd) -> Result<String, AllocError>
    ensures { IfOk result (λ text. string_bytes text ≡ kind_text end) }
{
    match end {
        RunEnd::Break => format!(in alloc; "break"),
        RunEnd::Sleep => format!(in alloc; "sleep"),
        RunEnd::CycleLimit => format!(in alloc; "cycle-limit"),
        RunEnd::TraceFull => format!(in alloc; "trace-full"),
        RunEnd::PollFault => format!(in alloc; "poll-fault"),
        RunEnd::WriteFault => format!(in alloc; "write-fault"),
        RunEnd::NoMemory => format!(in alloc; "no-memory"),
        RunEnd::Chip(stop) => {
            let text = stop_text(alloc, stop)?;
            format!(in alloc; "stop {text}")
        }
        RunEnd::Avr(stop) => {
            let text = firmware_text(alloc, stop)?;
            format!(in alloc; "stop {text}")
        }
    }
}

// Adds the line of how the run ended.
fn push_end(alloc: Global, text: &mut String, end: RunEnd) -> Result<(), AllocError>
    ensures { OnOk result (string_bytes text.new ≡ string_bytes text.old ++ end_line end) }
{
    let kind = kind_text(alloc, end)?;
    writeln!(text, "== end {kind}")
}

// Adds a line with a number behind its head.
fn push_number(text: &mut String, head: &str, n: u64) -> Result<(), AllocError>
    ensures { OnOk result (string_bytes text.new ≡ string_bytes text.old ++ number_line head.now n) }
{
    writeln!(text, "{head}{n}")
}

// Adds the head of a socket's line: its number and its status.
#[tactic(auto, using(crate::proofs::Lines::hex_pair))]
fn push_status(text: &mut String, sn: u8, status: u8) -> Result<(), AllocError>
    ensures { OnOk result (string_bytes text.new ≡ string_bytes text.old ++ status_text sn status) }
{
    write!(text, "== socket {sn} {status:02X}")
}

// Adds its rest: the counts.
fn push_tally(text: &mut String, tally: Tally) -> Result<(), AllocError>
    ensures { OnOk result (string_bytes text.new ≡ string_bytes text.old ++ tally_text tally) }
{
    let Tally {
        lives,
        sent,
        taken,
        got,
        ..
    } = tally;
    writeln!(text, " {lives} {sent} {taken} {got}")
}

// Adds the line of a socket, where it has had a life.
fn push_socket(text: &mut String, sn: u8, tally: Tally) -> Result<(), AllocError>
    ensures { OnOk result (string_bytes text.new ≡ string_bytes text.old ++ socket_text sn tally) }
{
    if tally.lives == 0 {
        return Ok(());
    }
    push_status(text, sn, tally.status)?;
    push_tally(text, tally)
}

// Adds the lines of the sockets that have had a life, rising.
fn push_sockets(text: &mut String, chip: &Chip) -> Result<(), AllocError>
    ensures { OnOk result ((starts : Starts) (past : Past) → Stands starts chip.now past
        → string_bytes text.new ≡ string_bytes text.old ++ sockets_text starts past 8) }
{
    for sn in 0..SOCKETS {
        let tally = chip.tally(sn);
        push_socket(text, sn, tally)?;
    }
    Ok(())
}

// Adds a word address.
#[tactic(auto, using(crate::proofs::Lines::hex_pair))]
fn push_address(text: &mut String, at: u16) -> Result<(), AllocError>
    ensures { OnOk result (string_bytes text.new ≡ string_bytes text.old ++ address_text at) }
{
    let high = at / 256;
    let low = at % 256;
    write!(text, " {high:02X}{low:02X}")
}

// Adds the word addresses of the last instructions that were started.
fn push_addresses(text: &mut String, mcu: &Mcu) -> Result<(), AllocError>
    ensures { OnOk result (string_bytes text.new ≡ string_bytes text.old ++ flat_map address_text (take 16 mcu.now.trail)) }
{
    for i in 0..KEPT {
        let Some(at) = mcu.trail(i) else {
            return Ok(());
        };
        push_address(text, at)?;
    }
    Ok(())
}

// Adds their line, where a run that ended so has one.
fn push_trail(text: &mut String, mcu: &Mcu, end: RunEnd) -> Result<(), AllocError>
    ensures { OnOk result (string_bytes text.new ≡ string_bytes text.old ++ trail_text end mcu.now.trail) }
{
    match end {
        RunEnd::Chip(_) | RunEnd::Avr(_) | RunEnd::CycleLimit => {
            text.push_str("== trail")?;
            push_addresses(text, mcu)?;
            text.push_str("\n")
        }
        _ => Ok(()),
    }
}

// Whether an event is one of the bus.
fn is_bus(event: Event<'_>) -> bool
    ensures { result ≡ is_bus (entry_of event.entry) }
{
    matches!(event, Event::Bus(..))
}

// Whether an event is one of a link.
fn is_link(event: Event<'_>) -> bool
    ensures { result ≡ is_link (entry_of event.entry) }
{
    matches!(event, Event::Link(..))
}

// Whether a link failed.
fn is_failed(event: Event<'_>) -> bool
    ensures { result ≡ is_failed (entry_of event.entry) }
{
    matches!(event, Event::Link(_, LinkWhat::Failed))
}

// 1 where it is so.
fn one(is: bool) -> u64
    ensures value { result ≡ (if is then 1 else 0) }
    ensures small { result ≤ 1 }
{
    u64::from(is)
}

// How many events of each kind a history has.
fn count(history: &History) -> Counts
    ensures bus { result.bus ≡ count_by is_bus history.now.past }
    ensures link { result.link ≡ count_by is_link history.now.past }
    ensures faults { result.faults ≡ count_by is_failed history.now.past }
{
    let mut counts = Counts {
        bus: 0,
        link: 0,
        faults: 0,
    };
    for place in 0..history.len() {
        let Some(event) = history.get(place) else {
            return counts;
        };
        counts.bus += one(is_bus(event));
        counts.link += one(is_link(event));
        counts.faults += one(is_failed(event));
    }
    counts
}

/// The report of a run.
///
/// Its chip stands for the history, `last` is the last byte that it printed, and it ended so. The cycles and the last
/// instructions that were started are those of `mcu`.
///
/// # Errors
///
/// Want of memory alone.
pub fn report(
    alloc: Global,
    chip: &Chip,
    history: &History,
    mcu: &Mcu,
    last: Option<u8>,
    end: RunEnd,
) -> Result<String, AllocError>
    ensures { IfOk result (λ text. (starts : Starts) → Stands starts chip.now history.now.past
        → string_bytes text ≡ report_of starts history.now.past last mcu.now.devices.cycles mcu.now.trail end) }
{
    let counts = count(history);
    let mut text = String::new(alloc);
    push_line_end(&mut text, last)?;
    push_end(alloc, &mut text, end)?;
    push_number(&mut text, "== cycles ", mcu.cycles())?;
    push_number(&mut text, "== bus ", counts.bus)?;
    push_number(&mut text, "== link ", counts.link)?;
    push_sockets(&mut text, chip)?;
    push_number(&mut text, "== faults ", counts.faults)?;
    push_trail(&mut text, mcu, end)?;
    Ok(text)
}
