//! Two passes that take turns over a scripted peer.
ghost use Rattle.std.specs.Prelude.{◌≡◌, [], None};

use chip_core::Chip;
use chip_hist::History;
use chip_lock::over::Over;
use chip_lock::pass::Pass;
use chip_lock::turn::Turn;
use chip_shared::shared::Shared;
use chip_sheet::event::{Addr, BusAnswer, BusEvent, Event};
use link_script::{Connects, Peer, PeerKind, ScriptLinks};
use std::alloc::Global;
use std::process::Abort;
use std::sync::Wait;
use std::thread;

/// On socket 0: TCP, OPEN, CONNECT, one byte, where the next one goes, and SEND.
const FRAMES: [[u8; 4]; 6] = [
    [0x00, 0x00, 0x0C, 0x01],
    [0x00, 0x01, 0x0C, 0x01],
    [0x00, 0x01, 0x0C, 0x04],
    [0x00, 0x00, 0x14, 0x41],
    [0x00, 0x25, 0x0C, 0x01],
    [0x00, 0x01, 0x0C, 0x20],
];

/// A server where the destination registers point after power-on.
fn server(alloc: Global) -> Peer {
    Peer {
        kind: PeerKind::Server,
        addr: Addr {
            ip: [0, 0, 0, 0],
            port: 0,
        },
        chip: 0,
        connect: Connects::Fine,
        takes: Vec::new(alloc),
        room: 65_536,
        say: Vec::new(alloc),
        end: None,
        fail: 0,
        lag: 0,
    }
}

/// An event of the bus in a turn of the firmware, and a link step in one of the links.
fn ask<R: Wait + Abort>(
    rt: &R,
    turn: &Turn<ScriptLinks>,
    firmware: &mut Pass<ScriptLinks>,
    links: &mut Pass<ScriptLinks>,
    e: BusEvent,
)
    requires first { firmware.old.turn ≡ turn.now }
    requires second { links.old.turn ≡ turn.now }
    ensures first { firmware.new.turn ≡ turn.now }
    ensures second { links.new.turn ≡ turn.now }
{
    assert!(rt; turn.bus(rt, firmware, e).is_ok());
    assert!(rt; turn.link(rt, links, 0).is_ok());
}

/// A frame of four bytes between two changes of the select line, each event with a link step behind it.
fn ask_frame<R: Wait + Abort>(
    rt: &R,
    turn: &Turn<ScriptLinks>,
    firmware: &mut Pass<ScriptLinks>,
    links: &mut Pass<ScriptLinks>,
    frame: &[u8; 4],
)
    requires first { firmware.old.turn ≡ turn.now }
    requires second { links.old.turn ≡ turn.now }
    ensures first { firmware.new.turn ≡ turn.now }
    ensures second { links.new.turn ≡ turn.now }
{
    ask(rt, turn, firmware, links, BusEvent::Select(true));
    ask(rt, turn, firmware, links, BusEvent::Byte(frame[0]));
    ask(rt, turn, firmware, links, BusEvent::Byte(frame[1]));
    ask(rt, turn, firmware, links, BusEvent::Byte(frame[2]));
    ask(rt, turn, firmware, links, BusEvent::Byte(frame[3]));
    ask(rt, turn, firmware, links, BusEvent::Select(false));
}

/// A chip after power-on, with that server as the only peer, and a history of ten million units.
fn board<R: Abort>(rt: &R, alloc: Global) -> Shared<ScriptLinks>
    ensures past { result.log.past ≡ [] }
    ensures unstopped { result.stopped ≡ None }
{
    let chip = Chip::new(alloc, 0, 0).expect(rt, "memory");
    let mut peers = Vec::new(alloc);
    peers.push(server(alloc)).expect(rt, "memory");
    let script = ScriptLinks::new(alloc, peers).expect(rt, "memory");
    Shared::new(chip, History::new(alloc, 10_000_000), script)
}

#[test]
fn two_passes_take_turns(rt: HostRuntime) {
    let alloc = rt.alloc();
    let shared = board(&rt, alloc);
    let Ok((turn, mut firmware, mut links)) = Turn::start(alloc, shared) else {
        panic!(rt; "memory")
    };
    for frame in &FRAMES {
        ask_frame(&rt, &turn, &mut firmware, &mut links, frame);
    }
    for _ in 0..100u32 {
        ask(&rt, &turn, &mut firmware, &mut links, BusEvent::Look);
    }
    assert_eq!(rt;
        turn.end(&rt, &mut firmware, Over::Finished),
        Over::Finished
    );
    assert_eq!(rt; turn.link(&rt, &mut links, 0), Err(Over::Finished));
    assert_eq!(rt;
        turn.bus(&rt, &mut firmware, BusEvent::Look),
        Err(Over::Finished)
    );
    let shared = turn.close(firmware, links);
    let (_, history, script) = shared.into_parts();
    assert_eq!(rt; history.len(), 274);
    match script.peer(0) {
        Some(peer) => assert_eq!(rt; peer.given, [0x41].as_slice()),
        None => assert!(rt; false),
    }
}

/// A frame of four bytes between two changes of the select line. Answers what came during the last byte.
fn transfer<R: Wait>(
    rt: &R,
    turn: &Turn<ScriptLinks>,
    pass: &mut Pass<ScriptLinks>,
    frame: &[u8; 4],
) -> Result<BusAnswer, Over>
    requires { pass.old.turn ≡ turn.now }
    ensures { pass.new.turn ≡ turn.now }
{
    turn.bus(rt, pass, BusEvent::Select(true))?;
    turn.bus(rt, pass, BusEvent::Byte(frame[0]))?;
    turn.bus(rt, pass, BusEvent::Byte(frame[1]))?;
    turn.bus(rt, pass, BusEvent::Byte(frame[2]))?;
    let last = turn.bus(rt, pass, BusEvent::Byte(frame[3]))?;
    turn.bus(rt, pass, BusEvent::Select(false))?;
    Ok(last)
}

/// Reads by this frame until this byte comes.
fn read_until<R: Wait>(
    rt: &R,
    turn: &Turn<ScriptLinks>,
    pass: &mut Pass<ScriptLinks>,
    frame: &[u8; 4],
    want: u8,
) -> Result<(), Over>
    requires { pass.old.turn ≡ turn.now }
    ensures { pass.new.turn ≡ turn.now }
{
    for _ in rt.forever() {
        if transfer(rt, turn, pass, frame)? == BusAnswer::Out(want) {
            return Ok(());
        }
        thread::yield_now();
    }
    unreachable!()
}

/// A firmware that waits until it is connected, sends a byte, waits until the link took it, and looks at the interrupt line 2,000
/// times.
fn converse<R: Wait>(
    rt: &R,
    turn: &Turn<ScriptLinks>,
    pass: &mut Pass<ScriptLinks>,
) -> Result<(), Over>
    requires { pass.old.turn ≡ turn.now }
    ensures { pass.new.turn ≡ turn.now }
{
    let (connect, send) = FRAMES.split_at(3);
    for frame in connect {
        transfer(rt, turn, pass, frame)?;
    }
    read_until(rt, turn, pass, &[0x00, 0x03, 0x08, 0x00], 0x17)?;
    for frame in send {
        transfer(rt, turn, pass, frame)?;
    }
    read_until(rt, turn, pass, &[0x00, 0x20, 0x08, 0x00], 0x08)?;
    for _ in 0..2000u32 {
        turn.bus(rt, pass, BusEvent::Look)?;
    }
    Ok(())
}

/// The firmware's thread.
fn talk<R: Wait>(rt: &R, turn: &Turn<ScriptLinks>, mut pass: Pass<ScriptLinks>) -> Pass<ScriptLinks>
    requires { pass.turn ≡ turn.now }
    ensures { result.turn ≡ turn.now }
{
    if converse(rt, turn, &mut pass).is_ok() {
        turn.end(rt, &mut pass, Over::Finished);
    }
    pass
}

/// The links' thread.
fn serve<R: Wait>(
    rt: &R,
    turn: &Turn<ScriptLinks>,
    mut pass: Pass<ScriptLinks>,
) -> Pass<ScriptLinks>
    requires { pass.turn ≡ turn.now }
    ensures { result.turn ≡ turn.now }
{
    for _ in rt.forever() {
        if turn.link(rt, &mut pass, 0).is_err() {
            return pass;
        }
    }
    unreachable!()
}

#[test]
fn two_threads_take_turns(rt: HostRuntime) {
    let alloc = rt.alloc();
    let shared = board(&rt, alloc);
    let Ok((turn, firmware, links)) = Turn::start(alloc, shared) else {
        panic!(rt; "memory")
    };
    let t = &turn;
    let (firmware, links) = thread::join(
        &rt,
        move || -> Pass<ScriptLinks>
            requires { firmware.turn ≡ t.now }
            ensures { result.turn ≡ t.entry.now }
        { talk(&rt, t, firmware) },
        move || -> Pass<ScriptLinks>
            requires { links.turn ≡ t.now }
            ensures { result.turn ≡ t.entry.now }
        { serve(&rt, t, links) },
    );
    assert_eq!(rt; firmware.ended(), Some(Over::Finished));
    assert_eq!(rt; links.ended(), Some(Over::Finished));
    let shared = turn.close(firmware, links);
    assert!(rt; shared.calls() >= 2);
    let (_, history, script) = shared.into_parts();
    let mut looks = 0u32;
    for place in 0..history.len() {
        if let Some(Event::Bus(BusEvent::Look, _)) = history.get(place) {
            looks = looks.saturating_add(1);
        }
    }
    assert_eq!(rt; looks, 2000);
    match script.peer(0) {
        Some(peer) => assert_eq!(rt; peer.given, [0x41].as_slice()),
        None => assert!(rt; false),
    }
}
