//! Links and a poller over one poll of the system.
ghost use Rattle.std.specs.Prelude.{◌≡◌, IfOk};
ghost use Rattle.link_trait.specs.Shown.{IsFresh};
ghost use Rattle.host_links.specs.Pair.{shown, failed_waits};

use crate::counting::Tally;
use crate::sockets::Sockets;
use link_trait::{
    Accepting, Addr, ConnId, Linking, Links, Reading, Receiving, Routes, Sending, Shutting, Writing,
};
use live_trait::{Failed, Poller};
use mio::{Events, Poll};
use std::alloc::Global;
use std::net::Net;
use std::time::Duration;

/// How many events a wait takes in: one for each socket of the chip and each listener.
const EVENTS: usize = 72;

/// Why the pair was not made.
#[derive(Clone, Copy, Debug, PartialEq, Eq)]
pub enum HostFault {
    /// The system refused a poll.
    Refused,
    /// Out of memory.
    NoMemory,
}

/// Links to sockets of the system. They tell no bytes.
///
/// Each socket of the chip has a place for one socket of the system; a call of a later life closes what stands there. A
/// connection to an address goes by the routes, and is answered TimedOut where none leads from it. Peers connect to ports of
/// 127.0.0.1, on listeners that the sockets of the chip share; at most 64 are there, and the one that was made first is closed
/// for another. A datagram goes by the routes, and is lost where none leads from its address; one that comes with more than 1472
/// bytes is passed over, and one call looks at 64. No call takes memory.
#[derive(Drop)]
pub struct HostLinks<'a, R> {
    /// The sockets.
    sockets: Sockets<'a, R>,
    /// What the links show.
    tally: Tally,
}

/// Waits until a socket of these links is ready.
#[derive(Drop)]
pub struct MioPoller {
    /// The poll.
    poll: Poll,
    /// Which sockets the last wait found ready. Nothing reads them: the next calls ask every socket.
    events: Events<Global>,
    /// How many waits failed.
    faults: u64,
}

/// Links without routes on which no call was made, and the poller that waits for them.
///
/// # Errors
/// `Refused` where the system gave no poll; `NoMemory` else.
pub fn host_pair<R: Net>(rt: &R, alloc: Global) -> Result<(HostLinks<'_, R>, MioPoller), HostFault>
    ensures links { IfOk result (λ pair. IsFresh (shown pair.0)) }
    ensures poller { IfOk result (λ pair. failed_waits pair.1 ≡ 0) }
{
    let Ok(poll) = Poll::new(rt) else {
        return Err(HostFault::Refused);
    };
    let Ok(registry) = poll.registry().try_clone() else {
        return Err(HostFault::Refused);
    };
    let Ok(events) = Events::with_capacity(alloc, EVENTS) else {
        return Err(HostFault::NoMemory);
    };
    let Ok(sockets) = Sockets::new(rt, alloc, registry) else {
        return Err(HostFault::NoMemory);
    };
    let links = HostLinks {
        sockets,
        tally: Tally::new(),
    };
    let poller = MioPoller {
        poll,
        events,
        faults: 0,
    };
    Ok((links, poller))
}

impl<'a, R: Net> Links for HostLinks<'a, R> {
    ghost use Rattle.host_links.specs.Tallies.{shown_of};

    ghost shown = { λ links. shown_of links.tally };

    ghost effect = { λ _ _ _ _. Unit {0} };

    fn set_routes(&mut self, routes: Routes) {
        self.sockets.set_routes(routes);
        self.tally.routed();
    }

    fn connect(&mut self, c: ConnId, to: Addr) -> Linking {
        let answer = self.sockets.connect(c, to);
        self.tally.linked(c, answer);
        answer
    }

    fn accept(&mut self, c: ConnId, port: u16) -> Accepting {
        let answer = self.sockets.accept(c, port);
        self.tally.accepted(c, answer);
        answer
    }

    fn write(&mut self, c: ConnId, piece: &[u8]) -> Writing {
        let answer = self.sockets.write(c, piece);
        self.tally.wrote(c, answer);
        answer
    }

    fn read(&mut self, c: ConnId, buf: &mut [u8]) -> Reading {
        let answer = self.sockets.read(c, buf);
        self.tally.has_read(c, answer);
        answer
    }

    fn send_to(&mut self, c: ConnId, port: u16, to: Addr, head: &[u8], tail: &[u8]) -> Sending {
        let answer = self.sockets.send_to(c, port, to, head, tail);
        self.tally.sent(c, answer);
        answer
    }

    fn recv_from(&mut self, c: ConnId, port: u16, buf: &mut [u8]) -> Receiving {
        let answer = self.sockets.recv_from(c, port, buf);
        self.tally.received(c, answer);
        answer
    }

    fn shut(&mut self, c: ConnId) -> Shutting {
        let answer = self.sockets.shut(c);
        self.tally.was_shut(c, answer);
        answer
    }

    fn drop_conn(&mut self, c: ConnId) {
        self.sockets.drop_conn(c);
        self.tally.dropped(c);
    }
}

impl Poller for MioPoller {
    ghost faults = { λ poller. poller.faults };

    /// Waits until a socket is ready, for one millisecond at most.
    fn wait(&mut self) -> Result<(), Failed> {
        let limit = Some(Duration::from_millis(1));
        match self.poll.poll(&mut self.events, limit) {
            Ok(()) => Ok(()),
            Err(_) => {
                self.faults = self.faults.saturating_add(1);
                Err(Failed)
            }
        }
    }
}
