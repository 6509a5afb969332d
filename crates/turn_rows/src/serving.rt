//! Links without peers, and a poller that fails by a list.
ghost use Rattle.std.specs.Prelude.{◌≡◌, [], None};

use chip_core::Chip;
use chip_hist::History;
use chip_lock::over::Over;
use chip_lock::pass::Pass;
use chip_lock::turn::Turn;
use chip_shared::shared::Shared;
use chip_sheet::event::{BusEvent, Event};
use link_script::ScriptLinks;
use live_trait::{Gate, ListPoller, Point};
use ready_loop::ready::run_ready;
use std::alloc::Global;
use std::process::Abort;
use std::sync::Wait;
use std::sync::atomic::AtomicU64;
use std::sync::atomic::Ordering::SeqCst;

/// TCP, OPEN and CONNECT on socket 0 and on socket 1, each in a frame of its own.
const FRAMES: [[u8; 4]; 6] = [
    [0x00, 0x00, 0x0C, 0x01],
    [0x00, 0x01, 0x0C, 0x01],
    [0x00, 0x01, 0x0C, 0x04],
    [0x00, 0x00, 0x2C, 0x01],
    [0x00, 0x01, 0x2C, 0x01],
    [0x00, 0x01, 0x2C, 0x04],
];

/// A gate that counts how often it was passed after a link step.
#[derive(Drop)]
struct CountGate {
    passed: AtomicU64,
}

impl Gate for CountGate {
    fn at(&self, point: Point) {
        if point == Point::Link {
            self.passed.fetch_add(1, SeqCst);
        }
    }
}

/// Six events of the bus: a frame of four bytes.
fn send_frame<R: Wait + Abort>(
    rt: &R,
    turn: &Turn<ScriptLinks>,
    pass: &mut Pass<ScriptLinks>,
    frame: &[u8; 4],
)
    requires { pass.old.turn ≡ turn.now }
    ensures { pass.new.turn ≡ turn.now }
{
    assert!(rt; turn.bus(rt, pass, BusEvent::Select(true)).is_ok());
    for byte in frame {
        assert!(rt; turn.bus(rt, pass, BusEvent::Byte(*byte)).is_ok());
    }
    assert!(rt; turn.bus(rt, pass, BusEvent::Select(false)).is_ok());
}

/// A row: which wait fails; whether sockets connect, and whether the other pass ends, before; the cause; link steps; from which
/// place of the history on there is no event of the bus, and its length.
#[derive(Clone, Copy)]
struct Row {
    fails: u64,
    connects: bool,
    ends: bool,
    want: Over,
    steps: u64,
    first: u64,
    len: u64,
}

/// A row in which nothing comes before.
fn idle(fails: u64, steps: u64, len: u64) -> Row {
    Row {
        fails,
        connects: false,
        ends: false,
        want: Over::PollFault,
        steps,
        first: 0,
        len,
    }
}

/// A row in which sockets connect before.
fn connected(ends: bool, want: Over, steps: u64, len: u64) -> Row {
    Row {
        fails: 1,
        connects: true,
        ends,
        want,
        steps,
        first: 36,
        len,
    }
}

/// A chip after power-on, links without peers, and a history of a thousand units.
fn board<R: Abort>(rt: &R, alloc: Global) -> Shared<ScriptLinks>
    ensures past { result.log.past ≡ [] }
    ensures unstopped { result.stopped ≡ None }
{
    let chip = Chip::new(alloc, 0, 0).expect(rt, "memory");
    let script = ScriptLinks::new(alloc, Vec::new(alloc)).expect(rt, "memory");
    Shared::new(chip, History::new(alloc, 1000), script)
}

/// What the firmware's pass does before.
fn begin<R: Wait + Abort>(
    rt: &R,
    turn: &Turn<ScriptLinks>,
    firmware: &mut Pass<ScriptLinks>,
    row: &Row,
)
    requires { firmware.old.turn ≡ turn.now }
    ensures { firmware.new.turn ≡ turn.now }
{
    if row.connects {
        for frame in &FRAMES {
            send_frame(rt, turn, firmware, frame);
        }
    }
    if row.ends {
        let _ = turn.end(rt, firmware, Over::Finished);
    }
}

fn failing<R: Abort>(rt: &R, alloc: Global, fails: u64) -> ListPoller {
    let mut list = Vec::new(alloc);
    list.push(fails).expect(rt, "memory");
    ListPoller::new(list)
}

/// Whether a history has so many entries, and no event of the bus from a place on.
fn is_quiet(history: &History, first: u64, len: u64) -> bool {
    for place in first..len {
        if matches!(history.get(place), Some(Event::Bus(_, _))) {
            return false;
        }
    }
    history.len() == len
}

fn serve<R: Wait + Abort>(rt: &R, alloc: Global, row: &Row) {
    let Ok((turn, mut firmware, mut links)) = Turn::start(alloc, board(rt, alloc)) else {
        panic!(rt; "memory")
    };
    begin(rt, &turn, &mut firmware, row);
    let mut poller = failing(rt, alloc, row.fails);
    let gate = CountGate {
        passed: AtomicU64::new(0),
    };
    assert_eq!(rt;
        run_ready(rt, &turn, &mut links, &mut poller, &gate),
        row.want
    );
    assert_eq!(rt; gate.passed.load(SeqCst), row.steps);
    assert_eq!(rt; turn.end(rt, &mut firmware, Over::Finished), row.want);
    let (_, history, _) = turn.close(firmware, links).into_parts();
    assert!(rt; is_quiet(&history, row.first, row.len));
}

#[test]
fn serves_until_a_wait_fails_or_the_turns_are_over(rt: HostRuntime) {
    for row in [
        idle(1, 1, 3),
        idle(3, 3, 5),
        connected(false, Over::PollFault, 3, 41),
        connected(true, Over::Finished, 0, 38),
    ] {
        serve(&rt, rt.alloc(), &row);
    }
}
