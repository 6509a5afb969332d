//! Worked rows of the chip alone: its answers, its stops, and what its links make of it.
ghost use Rattle.std.specs.Prelude.{◌<◌};
ghost use Rattle.chip_core.specs.Reached.{Reached};

use Step::{Frame, Idle, Link, Look, Reads, Select, Sends, Stops, Wants};
use chip_core::Chip;
use chip_core::laws::short_is_few;
use chip_sheet::event::{Addr, BusAnswer, BusEvent, LinkWhat};
use chip_sheet::stop::ChipStop;
use std::alloc::{AllocError, Global};
use std::process::Abort;
use std::test::Fail;

/// One step of a row.
#[derive(Clone, Copy)]
enum Step<'a> {
    /// The select line falls, or rises.
    Select(bool),
    /// These bytes go to the chip, each answered 00.
    Sends(&'a [u8]),
    /// A byte 00 goes to the chip for each of these, its answers.
    Wants(&'a [u8]),
    /// A frame of these bytes, each answered 00.
    Frame(&'a [u8]),
    /// A frame of these bytes, each answered 00, and of a byte 00 for each of those, its answers.
    Reads(&'a [u8], &'a [u8]),
    /// A frame of these bytes, each answered 00, and of a byte at which the chip stops.
    Stops(&'a [u8], u8, ChipStop),
    /// A byte 00 goes to the chip while the line is high.
    Idle,
    /// INTn is high, or low.
    Look(bool),
    /// A link event of a socket.
    Link(u8, LinkWhat<'a>),
}

/// The steps of a row on a chip with this start of what a connection sends, and the steps that come before them.
#[derive(Clone, Copy)]
struct Row<'a> {
    tx_start: u16,
    before: &'a [Step<'a>],
    steps: &'a [Step<'a>],
}

/// A chip, and at most how many events it has taken.
#[derive(Drop)]
struct Bench {
    chip: Chip,
    count: u64,
}

/// Gives the chip an event, and expects this answer.
fn turn(rt: &impl Abort, bench: &mut Bench, e: BusEvent, wanted: Result<BusAnswer, ChipStop>)
    requires { Reached bench.old.chip bench.old.count }
    ensures { Reached bench.new.chip bench.new.count }
{
    assert!(rt; bench.count < 1_000_000);
    short_is_few();
    let answer = bench.chip.bus(e);
    bench.count += 1;
    assert_eq!(rt; answer, wanted);
}

/// Gives the chip bytes, and expects 00 for each.
fn send(rt: &impl Abort, bench: &mut Bench, bytes: &[u8])
    requires { Reached bench.old.chip bench.old.count }
    ensures { Reached bench.new.chip bench.new.count }
{
    for byte in bytes {
        turn(rt, bench, BusEvent::Byte(*byte), Ok(BusAnswer::Out(0x00)));
    }
}

/// Gives the chip a byte 00 for each of these, and expects it.
fn want(rt: &impl Abort, bench: &mut Bench, bytes: &[u8])
    requires { Reached bench.old.chip bench.old.count }
    ensures { Reached bench.new.chip bench.new.count }
{
    for byte in bytes {
        turn(rt, bench, BusEvent::Byte(0x00), Ok(BusAnswer::Out(*byte)));
    }
}

/// Gives the chip a link event, which fits.
fn link(rt: &impl Abort, bench: &mut Bench, sn: u8, e: &LinkWhat<'_>)
    requires { Reached bench.old.chip bench.old.count }
    ensures { Reached bench.new.chip bench.new.count }
{
    assert!(rt; bench.count < 1_000_000);
    assert!(rt; sn < 8);
    assert!(rt; bench.chip.stopped().is_none());
    assert!(rt; bench.chip.fits(sn, e));
    short_is_few();
    bench.chip.link(sn, e);
    bench.count += 1;
}

/// Sets the select line, `true` for low.
fn select(rt: &impl Abort, bench: &mut Bench, low: bool)
    requires { Reached bench.old.chip bench.old.count }
    ensures { Reached bench.new.chip bench.new.count }
{
    turn(rt, bench, BusEvent::Select(low), Ok(BusAnswer::Done));
}

/// Makes a step of a row.
fn make(rt: &impl Abort, bench: &mut Bench, step: &Step<'_>)
    requires { Reached bench.old.chip bench.old.count }
    ensures { Reached bench.new.chip bench.new.count }
{
    match step {
        Select(low) => select(rt, bench, *low),
        Sends(bytes) => send(rt, bench, bytes),
        Wants(bytes) => want(rt, bench, bytes),
        Frame(bytes) => {
            select(rt, bench, true);
            send(rt, bench, bytes);
            select(rt, bench, false);
        }
        Reads(bytes, wanted) => {
            select(rt, bench, true);
            send(rt, bench, bytes);
            want(rt, bench, wanted);
            select(rt, bench, false);
        }
        Stops(bytes, last, stop) => {
            select(rt, bench, true);
            send(rt, bench, bytes);
            turn(rt, bench, BusEvent::Byte(*last), Err(*stop));
            turn(rt, bench, BusEvent::Look, Err(*stop));
        }
        Idle => turn(rt, bench, BusEvent::Byte(0x00), Ok(BusAnswer::Out(0xFF))),
        Look(high) => turn(rt, bench, BusEvent::Look, Ok(BusAnswer::Level(*high))),
        Link(sn, e) => link(rt, bench, *sn, e),
    }
}

/// Makes the steps of a row, one after another.
fn play(rt: &impl Abort, bench: &mut Bench, row: &[Step<'_>])
    requires { Reached bench.old.chip bench.old.count }
    ensures { Reached bench.new.chip bench.new.count }
{
    for s in row {
        make(rt, bench, s);
    }
}

/// Socket 0 is opened for TCP, asks for a connection, and is linked.
const LINKED: [Step<'static>; 4] = [
    Frame(&[0x00, 0x00, 0x0C, 0x01]),
    Frame(&[0x00, 0x01, 0x0C, 0x01]),
    Frame(&[0x00, 0x01, 0x0C, 0x04]),
    Link(0, LinkWhat::Linked),
];

/// Two bytes are sent on it.
const SENT: [Step<'static>; 7] = [
    Frame(&[0x00, 0x00, 0x0C, 0x01]),
    Frame(&[0x00, 0x01, 0x0C, 0x01]),
    Frame(&[0x00, 0x01, 0x0C, 0x04]),
    Link(0, LinkWhat::Linked),
    Frame(&[0x00, 0x00, 0x14, 0x01, 0x02]),
    Frame(&[0x00, 0x24, 0x0C, 0x00, 0x02]),
    Frame(&[0x00, 0x01, 0x0C, 0x20]),
];

/// Socket 1 is opened for UDP.
const DATAGRAMS: [Step<'static>; 2] = [
    Frame(&[0x00, 0x00, 0x2C, 0x02]),
    Frame(&[0x00, 0x01, 0x2C, 0x01]),
];

const SENDER: Addr = Addr {
    ip: [10, 0, 0, 2],
    port: 5000,
};

/// What is played: where positions of what is sent start, what comes before, and the row.
const ROWS: [Row<'static>; 23] = [
    // the version, by a frame of variable length
    Row {
        tx_start: 0,
        before: &[],
        steps: &[Reads(&[0x00, 0x39, 0x00], &[0x04])],
    },
    // RTR before and after a write
    Row {
        tx_start: 0,
        before: &[],
        steps: &[
            Reads(&[0x00, 0x19, 0x00], &[0x07, 0xD0]),
            Frame(&[0x00, 0x19, 0x04, 0x03, 0xE8]),
            Reads(&[0x00, 0x19, 0x00], &[0x03, 0xE8]),
        ],
    },
    // two frames of fixed length under one select
    Row {
        tx_start: 0,
        before: &[],
        steps: &[
            Select(true),
            Sends(&[0x00, 0x39, 0x01]),
            Wants(&[0x04]),
            Sends(&[0x00, 0x1B, 0x01]),
            Wants(&[0x08]),
            Select(false),
        ],
    },
    // a reserved block
    Row {
        tx_start: 0,
        before: &[],
        steps: &[Stops(
            &[0x00, 0x00, 0x20],
            0x00,
            ChipStop::ReservedBlock { block: 4 },
        )],
    },
    // a byte while the line is high
    Row {
        tx_start: 0,
        before: &[],
        steps: &[Idle, Reads(&[0x00, 0x39, 0x00], &[0x04])],
    },
    // a reset
    Row {
        tx_start: 0,
        before: &[],
        steps: &[
            Frame(&[0x00, 0x01, 0x04, 0x0A, 0x00, 0x00, 0x01]),
            Frame(&[0x00, 0x00, 0x04, 0x80]),
            Reads(&[0x00, 0x00, 0x00], &[0x00, 0x00]),
        ],
    },
    // a TX buffer wraps at its size
    Row {
        tx_start: 2047,
        before: &LINKED,
        steps: &[
            Frame(&[0x07, 0xFF, 0x14, 0xAA, 0xBB]),
            Frame(&[0x00, 0x24, 0x0C, 0x08, 0x01]),
            Frame(&[0x00, 0x01, 0x0C, 0x20]),
            Reads(&[0x00, 0x00, 0x10], &[0xBB]),
            Reads(&[0x00, 0x20, 0x08], &[0x07, 0xFE]),
        ],
    },
    // the pointers wrap at 65,536
    Row {
        tx_start: 65534,
        before: &LINKED,
        steps: &[
            Frame(&[0xFF, 0xFE, 0x14, 0x01, 0x02, 0x03, 0x04]),
            Frame(&[0x00, 0x24, 0x0C, 0x00, 0x02]),
            Frame(&[0x00, 0x01, 0x0C, 0x20]),
            Reads(&[0x00, 0x22, 0x08], &[0x00, 0x02, 0x00, 0x02]),
            Reads(&[0x00, 0x20, 0x08], &[0x07, 0xFC]),
        ],
    },
    // one SENDOK stands for two SENDs whose bytes are taken together
    Row {
        tx_start: 0,
        before: &LINKED,
        steps: &[
            Frame(&[0x00, 0x24, 0x0C, 0x00, 0x03]),
            Frame(&[0x00, 0x01, 0x0C, 0x20]),
            Frame(&[0x00, 0x24, 0x0C, 0x00, 0x05]),
            Frame(&[0x00, 0x01, 0x0C, 0x20]),
            Link(0, LinkWhat::Took(5)),
            Reads(&[0x00, 0x02, 0x08], &[0x11]),
            Frame(&[0x00, 0x02, 0x0C, 0x10]),
            Reads(&[0x00, 0x02, 0x08], &[0x01]),
        ],
    },
    // SENDOK comes with the last byte that is taken
    Row {
        tx_start: 0,
        before: &SENT,
        steps: &[
            Link(0, LinkWhat::Took(1)),
            Reads(&[0x00, 0x02, 0x08], &[0x01]),
            Link(0, LinkWhat::Took(1)),
            Reads(&[0x00, 0x02, 0x08], &[0x11]),
        ],
    },
    // the first free byte may be written, a byte in flight may not
    Row {
        tx_start: 0,
        before: &SENT,
        steps: &[
            Frame(&[0x00, 0x02, 0x14, 0x55]),
            Stops(
                &[0x00, 0x00, 0x14],
                0x55,
                ChipStop::OverwriteInFlight { sn: 0, at: 0 },
            ),
        ],
    },
    // the interrupt line follows SIR and SIMR
    Row {
        tx_start: 0,
        before: &LINKED,
        steps: &[
            Reads(&[0x00, 0x17, 0x00], &[0x01]),
            Look(true),
            Frame(&[0x00, 0x18, 0x04, 0x01]),
            Look(false),
        ],
    },
    // a datagram with its header
    Row {
        tx_start: 0,
        before: &DATAGRAMS,
        steps: &[
            Link(1, LinkWhat::Datagram(SENDER, &[0x68, 0x69])),
            Reads(&[0x00, 0x26, 0x28], &[0x00, 0x0A]),
            Reads(
                &[0x00, 0x00, 0x38],
                &[0x0A, 0x00, 0x00, 0x02, 0x13, 0x88, 0x00, 0x02, 0x68, 0x69],
            ),
        ],
    },
    // stops
    Row {
        tx_start: 0,
        before: &[],
        steps: &[Stops(&[0x00, 0x00, 0x04], 0x08, ChipStop::Pppoe)],
    },
    Row {
        tx_start: 0,
        before: &[],
        steps: &[Stops(&[0x00, 0x01, 0x0C], 0x21, ChipStop::SendMac { sn: 0 })],
    },
    Row {
        tx_start: 0,
        before: &[],
        steps: &[
            Frame(&[0x00, 0x00, 0x0C, 0x82]),
            Stops(&[0x00, 0x01, 0x0C], 0x01, ChipStop::Multicast { sn: 0 }),
        ],
    },
    Row {
        tx_start: 0,
        before: &[],
        steps: &[
            Frame(&[0x00, 0x1F, 0x0C, 0x03]),
            Frame(&[0x00, 0x00, 0x0C, 0x01]),
            Stops(&[0x00, 0x01, 0x0C], 0x01, ChipStop::BadBufferSize { sn: 0 }),
        ],
    },
    Row {
        tx_start: 0,
        before: &[],
        steps: &[
            Frame(&[0x00, 0x1F, 0x0C, 0x03]),
            Frame(&[0x00, 0x00, 0x0C, 0x04]),
            Stops(&[0x00, 0x01, 0x0C], 0x01, ChipStop::RawEthernet { sn: 0 }),
        ],
    },
    Row {
        tx_start: 0,
        before: &LINKED,
        steps: &[Stops(&[0x00, 0x1F, 0x0C], 0x04, ChipStop::SizeWhileOpen { sn: 0 })],
    },
    Row {
        tx_start: 0,
        before: &LINKED,
        steps: &[
            Frame(&[0x00, 0x24, 0x0C, 0x08, 0x01]),
            Stops(
                &[0x00, 0x01, 0x0C],
                0x20,
                ChipStop::SendTooLong {
                    sn: 0,
                    len: 2049,
                    free: 2048,
                },
            ),
        ],
    },
    Row {
        tx_start: 0,
        before: &LINKED,
        steps: &[
            Frame(&[0x00, 0x28, 0x0C, 0x00, 0x01]),
            Stops(
                &[0x00, 0x01, 0x0C],
                0x40,
                ChipStop::RecvPastEnd {
                    sn: 0,
                    asked: 1,
                    there: 0,
                },
            ),
        ],
    },
    Row {
        tx_start: 0,
        before: &DATAGRAMS,
        steps: &[
            Frame(&[0x00, 0x24, 0x2C, 0x00, 0x01]),
            Frame(&[0x00, 0x01, 0x2C, 0x20]),
            Frame(&[0x00, 0x24, 0x2C, 0x00, 0x02]),
            Stops(&[0x00, 0x01, 0x2C], 0x20, ChipStop::SendBusy { sn: 1 }),
        ],
    },
    // a SEND of no bytes
    Row {
        tx_start: 0,
        before: &LINKED,
        steps: &[
            Frame(&[0x00, 0x01, 0x0C, 0x20]),
            Reads(&[0x00, 0x02, 0x08], &[0x11]),
        ],
    },
];

/// Plays each row on a chip of its own.
fn play_rows(rt: &impl Abort, alloc: Global, rows: &[Row<'_>]) -> Result<(), AllocError> {
    for row in rows {
        let chip = Chip::new(alloc, row.tx_start, 0)?;
        let mut bench = Bench { chip, count: 0 };
        play(rt, &mut bench, row.before);
        play(rt, &mut bench, row.steps);
    }
    Ok(())
}

#[test]
fn worked_rows(rt: HostRuntime) -> Result<(), Fail> {
    play_rows(&rt, rt.alloc(), &ROWS)?;
    Ok(())
}
