//! Rows of one socket that connects to a scripted server.

use chip_core::Chip;
use chip_hist::History;
use chip_shared::closing::Closing;
use chip_shared::shared::{LinkDid, Shared, StepEnd};
use chip_sheet::event::{Addr, BusAnswer, BusEvent};
use link_script::{Chunk, Connects, Peer, PeerKind, ScriptLinks};
use std::alloc::Global;
use std::process::Abort;

/// What the destination registers hold after power-on, where the peer of each row waits.
const NOWHERE: Addr = Addr {
    ip: [0, 0, 0, 0],
    port: 0,
};

/// TCP, OPEN and CONNECT on socket 0.
const CONNECT: [[u8; 4]; 3] = [
    [0x00, 0x00, 0x0C, 0x01],
    [0x00, 0x01, 0x0C, 0x01],
    [0x00, 0x01, 0x0C, 0x04],
];

const SEND: [u8; 4] = [0x00, 0x01, 0x0C, 0x20];

const RECV: [u8; 4] = [0x00, 0x01, 0x0C, 0x40];

/// A server at that address, which takes so many bytes at each write and says these at once.
fn server(rt: &impl Abort, alloc: Global, takes: &[u32], says: &[u8]) -> Peer {
    let mut say = Vec::new(alloc);
    if !says.is_empty() {
        say.push(Chunk {
            after: 0,
            bytes: Vec::from_slice(alloc, says).expect(rt, "memory"),
        })
        .expect(rt, "memory");
    }
    Peer {
        kind: PeerKind::Server,
        addr: NOWHERE,
        chip: 0,
        connect: Connects::Fine,
        takes: Vec::from_slice(alloc, takes).expect(rt, "memory"),
        room: 65_536,
        say,
        end: None,
        fail: 0,
        lag: 0,
    }
}

/// A chip with these starts, a history with this limit, and that peer.
fn board(
    rt: &impl Abort,
    alloc: Global,
    starts: (u16, u16),
    limit: u64,
    peer: Peer,
) -> Shared<ScriptLinks> {
    assert!(rt; 1 <= limit && limit <= 67_108_864);
    let chip = Chip::new(alloc, starts.0, starts.1).expect(rt, "memory");
    let mut peers = Vec::new(alloc);
    peers.push(peer).expect(rt, "memory");
    let links = ScriptLinks::new(alloc, peers).expect(rt, "memory");
    Shared::new(chip, History::new(alloc, limit), links)
}

/// A frame of these bytes: the chip's answers to them are these.
fn frame(rt: &impl Abort, shared: &mut Shared<ScriptLinks>, bytes: &[u8], wanted: &[u8]) {
    assert_eq!(rt;
        shared.bus_step(BusEvent::Select(true)),
        Ok(BusAnswer::Done)
    );
    for (byte, want) in bytes.iter().zip(wanted) {
        assert_eq!(rt;
            shared.bus_step(BusEvent::Byte(*byte)),
            Ok(BusAnswer::Out(*want))
        );
    }
    assert_eq!(rt;
        shared.bus_step(BusEvent::Select(false)),
        Ok(BusAnswer::Done)
    );
}

/// A frame that writes: each byte is answered 00.
fn write(rt: &impl Abort, shared: &mut Shared<ScriptLinks>, bytes: &[u8]) {
    frame(rt, shared, bytes, &[0; 16]);
}

/// Connects socket 0 to the peer.
fn connect(rt: &impl Abort, shared: &mut Shared<ScriptLinks>) {
    for bytes in &CONNECT {
        write(rt, shared, bytes);
    }
    assert_eq!(rt; shared.link_step(0), Ok(LinkDid::Did(0)));
}

#[test]
fn peer_is_given_what_wraps_in_the_buffer(rt: HostRuntime) {
    let mut shared = board(
        &rt,
        rt.alloc(),
        (65_534, 0),
        10_000,
        server(&rt, rt.alloc(), &[], &[]),
    );
    connect(&rt, &mut shared);
    write(
        &rt,
        &mut shared,
        &[0xFF, 0xFE, 0x14, 0x01, 0x02, 0x03, 0x04],
    );
    write(&rt, &mut shared, &[0x00, 0x24, 0x0C, 0x00, 0x02]);
    write(&rt, &mut shared, &SEND);
    assert_eq!(rt; shared.sweep(), Ok(()));
    assert_eq!(rt; shared.stopped(), None);
    assert_eq!(rt; shared.closing(), Closing::Clear);
    let calls = shared.calls();
    let (_, history, links) = shared.into_parts();
    assert!(rt; calls < history.len());
    match links.peer(0) {
        Some(peer) => assert_eq!(rt; peer.given, [0x01, 0x02, 0x03, 0x04].as_slice()),
        None => assert!(rt; false),
    }
}

#[test]
fn peer_takes_in_parts(rt: HostRuntime) {
    let mut shared = board(
        &rt,
        rt.alloc(),
        (0, 0),
        10_000,
        server(&rt, rt.alloc(), &[2, 0, 3], &[]),
    );
    connect(&rt, &mut shared);
    write(
        &rt,
        &mut shared,
        &[0x00, 0x00, 0x14, 0x01, 0x02, 0x03, 0x04, 0x05],
    );
    write(&rt, &mut shared, &[0x00, 0x24, 0x0C, 0x00, 0x05]);
    write(&rt, &mut shared, &SEND);
    let interrupts = [0x00, 0x02, 0x08, 0x00];
    assert_eq!(rt; shared.link_step(0), Ok(LinkDid::Did(0)));
    frame(&rt, &mut shared, &interrupts, &[0x00, 0x00, 0x00, 0x01]);
    assert_eq!(rt; shared.link_step(0), Ok(LinkDid::NotYet(0)));
    assert_eq!(rt; shared.link_step(0), Ok(LinkDid::Did(0)));
    frame(&rt, &mut shared, &interrupts, &[0x00, 0x00, 0x00, 0x11]);
}

#[test]
fn peer_fills_the_buffer(rt: HostRuntime) {
    let mut shared = board(
        &rt,
        rt.alloc(),
        (0, 0),
        10_000,
        server(&rt, rt.alloc(), &[], &[0x55; 3000]),
    );
    connect(&rt, &mut shared);
    let received = [0x00, 0x26, 0x08, 0x00, 0x00];
    assert_eq!(rt; shared.link_step(1), Ok(LinkDid::Did(1)));
    frame(&rt, &mut shared, &received, &[0x00, 0x00, 0x00, 0x05, 0xC0]);
    assert_eq!(rt; shared.link_step(1), Ok(LinkDid::Did(1)));
    frame(&rt, &mut shared, &received, &[0x00, 0x00, 0x00, 0x08, 0x00]);
    assert_eq!(rt; shared.link_step(1), Ok(LinkDid::Idle));
    write(&rt, &mut shared, &[0x00, 0x28, 0x0C, 0x03, 0xE8]);
    write(&rt, &mut shared, &RECV);
    assert_eq!(rt; shared.link_step(1), Ok(LinkDid::Did(1)));
    frame(&rt, &mut shared, &received, &[0x00, 0x00, 0x00, 0x07, 0xD0]);
}

#[test]
fn history_of_one_event(rt: HostRuntime) {
    let mut shared = board(
        &rt,
        rt.alloc(),
        (0, 0),
        1,
        server(&rt, rt.alloc(), &[], &[]),
    );
    assert_eq!(rt;
        shared.bus_step(BusEvent::Select(true)),
        Ok(BusAnswer::Done)
    );
    assert_eq!(rt;
        shared.bus_step(BusEvent::Select(true)),
        Err(StepEnd::TraceFull)
    );
    assert_eq!(rt; shared.link_step(0), Err(StepEnd::TraceFull));
    assert_eq!(rt; shared.calls(), 0);
}
