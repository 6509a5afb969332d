//! Events of each kind go in and come back, with ample memory.
use chip_hist::{History, data_len};
use chip_sheet::event::LinkWhat::{
    Accepted, Datagram, Dropped, Ended, Failed, Got, Linked, Refused, Shut, TimedOut, Took,
};
use chip_sheet::event::{Addr, BusAnswer, BusEvent, Event};
use std::test::Fail;

const PEER: Addr = Addr {
    ip: [10, 0, 0, 2],
    port: 5000,
};

/// A piece that begins two units of weight.
const PIECE: [u8; 33] = [7; 33];

/// A piece that begins one, and ends with it.
const LONGEST_OF_ONE: [u8; 32] = [8; 32];

/// Adds an event after it made room, where the history is not full.
fn add(history: &mut History, event: Event<'_>) -> Result<(), Fail> {
    if history.is_full() {
        return Err(Fail::new("full"));
    }
    history.reserve(1, data_len(event))?;
    history.push(event);
    Ok(())
}

#[test]
fn each_kind_comes_back(rt: HostRuntime) -> Result<(), Fail> {
    let events = [
        Event::Rest,
        Event::Rest,
        Event::Bus(BusEvent::Select(true), BusAnswer::Done),
        Event::Bus(BusEvent::Byte(0x39), BusAnswer::Out(4)),
        Event::Bus(BusEvent::Look, BusAnswer::Level(true)),
        Event::Rest,
        Event::Link(0, Linked),
        Event::Link(1, Accepted(PEER)),
        Event::Link(2, Refused),
        Event::Link(3, TimedOut),
        Event::Link(4, Took(1460)),
        Event::Link(5, Got(&PIECE)),
        Event::Link(6, Datagram(PEER, &LONGEST_OF_ONE)),
        Event::Link(7, Datagram(PEER, b"")),
        Event::Rest,
        Event::Link(0, Ended),
        Event::Link(1, Shut),
        Event::Link(2, Failed),
        Event::Link(3, Dropped),
    ];
    let mut history = History::new(rt.alloc(), 18);
    for event in events {
        assert!(rt; !history.is_full());
        add(&mut history, event)?;
    }
    assert!(rt; history.len() == 19);
    assert!(rt; history.weight() == 18);
    assert!(rt; history.is_full());
    for (place, event) in events.iter().enumerate() {
        assert_eq!(rt; history.get(place as u64), Some(*event), "at {place}");
    }
    assert!(rt; history.get(19).is_none());
    Ok(())
}
