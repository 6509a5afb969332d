//! Reports and traces of a small history, and runs of firmware of one instruction.
use avr_core::AvrStop;
use avr_mcu::Mcu;
use board_file::board;
use board_sim::end::{RunEnd, SimEnd};
use board_sim::report::report;
use board_sim::runs::{sim, trace};
use board_sim::trace::{TraceError, write_trace};
use chip_core::Chip;
use chip_hist::{History, data_len};
use chip_sheet::event::{BusAnswer, BusEvent, Event, LinkWhat};
use chip_sheet::stop::ChipStop;
use flash::Image;
use std::alloc::Global;
use std::test::Fail;
use wz_base::MemSink;

/// An event of the bus, two of links, of which one failed, and a turn in which nothing happened.
fn small_history(alloc: Global) -> Result<History, Fail> {
    let mut history = History::new(alloc, 4);
    for event in [
        Event::Bus(BusEvent::Byte(0x39), BusAnswer::Out(4)),
        Event::Link(3, LinkWhat::Failed),
        Event::Link(0, LinkWhat::Took(5)),
        Event::Rest,
    ] {
        if history.is_full() {
            return Err(Fail::new("full"));
        }
        history.reserve(1, data_len(event))?;
        history.push(event);
    }
    Ok(history)
}

#[test]
fn reports_ends(rt: HostRuntime) -> Result<(), Fail> {
    let chip = Chip::new(rt.alloc(), 0, 0)?;
    let history = small_history(rt.alloc())?;
    let mcu = Mcu::new(rt.alloc(), Image::blank(rt.alloc())?)?;
    for (last, end, kind, trail) in [
        (None, RunEnd::Break, "== end break\n", ""),
        (Some(b'\n'), RunEnd::TraceFull, "== end trace-full\n", ""),
        (
            Some(b'x'),
            RunEnd::CycleLimit,
            "\n== end cycle-limit\n",
            "== trail\n",
        ),
        (
            None,
            RunEnd::Chip(ChipStop::OverwriteInFlight { sn: 0, at: 2047 }),
            "== end stop OverwriteInFlight 0 2047\n",
            "== trail\n",
        ),
        (
            None,
            RunEnd::Avr(AvrStop::SelfProgram { pc: 7 }),
            "== end stop SelfProgram 7\n",
            "== trail\n",
        ),
    ] {
        let text = report(rt.alloc(), &chip, &history, &mcu, last, end)?;
        let shown = format!(in rt.alloc();
            "{kind}== cycles 0\n== bus 1\n== link 2\n== faults 1\n{trail}"
        )?;
        assert_eq!(rt; text.as_str(), shown.as_str());
    }
    Ok(())
}

#[test]
fn writes_traces(rt: HostRuntime) -> Result<(), Fail> {
    let history = small_history(rt.alloc())?;
    let whole = "w5500 trace 1 100 65535\n39>04\n@3:failed\n@0:took:5\n.\n";
    for (failing, answer, shown) in [(0, Ok(()), whole), (1, Err(TraceError::WriteFault), "")] {
        let mut out = MemSink::new(rt.alloc(), 100, vec![in rt.alloc(); failing]?)?;
        let answered = write_trace(rt.alloc(), &history, 100, 65535, &mut out);
        assert_eq!(rt; answered, answer);
        assert_eq!(rt; out.bytes(), shown.as_bytes());
    }
    Ok(())
}

/// Which call a run is made by.
#[derive(Clone, Copy)]
enum Made {
    Sim,
    Trace,
}

/// Runs firmware of one instruction, of these bytes, on a board of this text.
fn run_bytes(
    alloc: Global,
    made: Made,
    [low, high]: [u8; 2],
    text: &str,
    out: &mut MemSink,
) -> Result<SimEnd, Fail> {
    let mut image = Image::blank(alloc)?;
    image.set(0, low);
    image.set(1, high);
    let board = board(alloc, text.as_bytes())?;
    Ok(match made {
        Made::Sim => sim(alloc, image, board, out),
        Made::Trace => trace(alloc, image, board, out),
    })
}

#[test]
fn runs_firmware(rt: HostRuntime) -> Result<(), Fail> {
    let broken = "== end break\n== cycles 1\n== bus 0\n== link 0\n== faults 0\n";
    let limited =
        "== end cycle-limit\n== cycles 2\n== bus 0\n== link 0\n== faults 0\n== trail 0000\n";
    let traced = "w5500 trace 1 0 0\n";
    for (made, bytes, text, failing, end, cycles, shown) in [
        (Made::Sim, [0x98, 0x95], "", 0, RunEnd::Break, 1, broken),
        (
            Made::Sim,
            [0x00, 0xC0],
            "cycles = 1",
            0,
            RunEnd::CycleLimit,
            2,
            limited,
        ),
        (Made::Sim, [0x98, 0x95], "", 1, RunEnd::WriteFault, 1, ""),
        (Made::Trace, [0x98, 0x95], "", 0, RunEnd::Break, 1, traced),
        (
            Made::Trace,
            [0x00, 0xC0],
            "cycles = 1",
            0,
            RunEnd::CycleLimit,
            2,
            traced,
        ),
        (Made::Trace, [0x98, 0x95], "", 1, RunEnd::WriteFault, 1, ""),
    ] {
        let mut out = MemSink::new(rt.alloc(), 200, vec![in rt.alloc(); failing]?)?;
        let left = run_bytes(rt.alloc(), made, bytes, text, &mut out)?;
        assert_eq!(rt; left.end, end);
        assert_eq!(rt; left.cycles, cycles);
        assert_eq!(rt; left.history.len(), 0);
        assert_eq!(rt; out.bytes(), shown.as_bytes());
    }
    Ok(())
}
