//! Live runs over links without peers: how they end and what they print.
use board_bus::BusEvent;
use board_echo::frames_image;
use board_file::board;
use board_run::live::live;
use board_sim::end::RunEnd;
use chip_sheet::stop::ChipStop;
use flash::Image;
use link_script::ScriptLinks;
use live_trait::{ListPoller, OpenGate};
use std::alloc::Global;
use std::sync::Wait;
use std::test::Fail;
use std::thread::Threads;
use wz_base::MemSink;

/// What the firmware of a run is.
#[derive(Clone, Copy)]
enum Code {
    /// These words, behind which the memory is blank.
    Words([u16; 8]),
    /// What gives the chip these events.
    Events(&'static [BusEvent]),
}

/// One run: its firmware, its board, which wait and which write fails (0: none), and what it comes to. The text is this, or it
/// begins and ends so where how much happened hangs on the turns.
#[derive(Clone, Copy)]
struct Row {
    code: Code,
    board: &'static str,
    wait: u64,
    write: u64,
    end: RunEnd,
    first: &'static str,
    last: &'static str,
}

/// A run to a `break`.
const BREAK: Row = Row {
    code: Code::Words([0x9598, 0, 0, 0, 0, 0, 0, 0]),
    board: "",
    wait: 0,
    write: 0,
    end: RunEnd::Break,
    first: "== end break\n== cycles 1\n== bus 0\n== link 0\n== faults 0\n",
    last: "",
};

/// Prints `A`, and breaks.
const PRINTS: Code = Code::Words([0xE008, 0x9300, 0x00C1, 0xE401, 0x9300, 0x00C6, 0x9598, 0]);

/// Pulls the select line low and lets it go, for ever.
const TOGGLES: Code = Code::Words([0xE004, 0xB905, 0xB904, 0x982A, 0x9A2A, 0xCFFD, 0, 0]);

const ROWS: [Row; 9] = [
    BREAK,
    Row {
        code: PRINTS,
        first: "A\n== end break\n== cycles 7\n== bus 0\n== link 0\n== faults 0\n",
        ..BREAK
    },
    Row {
        code: Code::Words([0xE001, 0xBF03, 0x9588, 0, 0, 0, 0, 0]),
        end: RunEnd::Sleep,
        first: "== end sleep\n== cycles 3\n== bus 0\n== link 0\n== faults 0\n",
        ..BREAK
    },
    Row {
        code: Code::Words([0xCFFF, 0, 0, 0, 0, 0, 0, 0]),
        board: "cycles = 3",
        end: RunEnd::CycleLimit,
        first: "== end cycle-limit\n== cycles 4\n== bus 0\n== link 0\n== faults 0\n== trail 0000 0000\n",
        ..BREAK
    },
    // PPPoE mode is set.
    Row {
        code: Code::Events(&[
            BusEvent::Select(true),
            BusEvent::Byte(0x00),
            BusEvent::Byte(0x00),
            BusEvent::Byte(0x04),
            BusEvent::Byte(0x08),
        ]),
        end: RunEnd::Chip(ChipStop::Pppoe),
        first: "== end stop Pppoe\n",
        last: "",
        ..BREAK
    },
    Row {
        code: TOGGLES,
        board: "events = 1",
        end: RunEnd::TraceFull,
        first: "== end trace-full\n== cycles ",
        last: "\n== link 0\n== faults 0\n",
        ..BREAK
    },
    Row {
        code: TOGGLES,
        board: "cycles = 10000000",
        wait: 1,
        end: RunEnd::PollFault,
        first: "== end poll-fault\n== cycles ",
        last: "\n== link 0\n== faults 0\n",
        ..BREAK
    },
    Row {
        code: PRINTS,
        write: 1,
        end: RunEnd::WriteFault,
        first: "",
        ..BREAK
    },
    Row {
        code: PRINTS,
        write: 2,
        end: RunEnd::WriteFault,
        first: "A",
        ..BREAK
    },
];

/// The firmware as an image.
fn image_of(alloc: Global, code: Code) -> Result<Image, Fail> {
    match code {
        Code::Words(words) => {
            let mut image = Image::blank(alloc)?;
            for i in 0..8u16 {
                let word = words[i as usize];
                image.set(2 * i, (word % 256) as u8);
                image.set(2 * i + 1, (word / 256) as u8);
            }
            Ok(image)
        }
        Code::Events(events) => Ok(frames_image(alloc, events).ok().ok_or("no image")?),
    }
}

/// Runs a row over links without peers; answers how it ended, and what it printed.
fn run<R: Threads + Wait + Sync>(
    rt: &R,
    alloc: Global,
    row: Row,
) -> Result<(RunEnd, Vec<u8>), Fail> {
    let board = board(alloc, row.board.as_bytes())?;
    let mut sink = MemSink::new(alloc, 1000, vec![in alloc; row.write]?)?;
    let links = ScriptLinks::new(alloc, Vec::new(alloc))?;
    let poller = ListPoller::new(vec![in alloc; row.wait]?);
    let image = image_of(alloc, row.code)?;
    let left = live(rt, alloc, image, board, &mut sink, links, poller, &OpenGate);
    Ok((left.end, sink.bytes().to_vec(alloc)?))
}

#[test]
fn runs_come_to_their_ends(rt: HostRuntime) -> Result<(), Fail> {
    for row in &ROWS {
        let (end, text) = run(&rt, rt.alloc(), *row)?;
        assert_eq!(rt; end, row.end);
        assert!(rt; text.starts_with(row.first.as_bytes()), "{}", row.first);
        assert!(rt; text.ends_with(row.last.as_bytes()), "{}", row.first);
    }
    Ok(())
}
