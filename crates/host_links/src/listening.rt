//! Listeners of the system, one for each of its ports, which the sockets of the chip share.
use crate::naming::own_addr;
use mio::net::{TcpListener, TcpStream};
use mio::{Interest, Registry, Token};
use std::net::{Net, SocketAddr};
use std::{array, io};

/// How many places for listeners there are.
const PLACES: usize = 64;

/// The first number that the poll knows a listener by. Those below are the chip's sockets.
const FIRST: usize = 8;

/// A listener, with its port.
#[derive(Drop)]
struct Listening {
    port: u16,
    listener: TcpListener,
}

/// At most 64 listeners.
#[derive(Drop)]
pub struct Listeners {
    /// The places, taken one after the other, and from the first again.
    table: [Option<Listening>; PLACES],
    /// The place that is taken next: one without a listener, or with the one that was made first.
    next: usize,
}

/// Whether this listener is there, and has this port.
fn has_port(place: &Option<Listening>, port: u16) -> bool {
    match place {
        Some(listening) => listening.port == port,
        None => false,
    }
}

impl Listeners {
    /// No listener.
    pub fn new() -> Listeners {
        Listeners {
            table: array::from_fn(|_| None),
            next: 0,
        }
    }

    /// The place of a port's listener, which is made at need. Where there are 64, the one that was made first is closed.
    fn place<R: Net>(&mut self, rt: &R, registry: &Registry, port: u16) -> io::Result<usize> {
        if let Some(place) = self.table.iter().position(|place| has_port(place, port)) {
            return Ok(place);
        }
        let place = self.next % PLACES;
        let mut listener = TcpListener::bind(rt, own_addr(port))?;
        registry.register(&mut listener, Token(FIRST + place), Interest::READABLE)?;
        self.table[place] = Some(Listening { port, listener });
        self.next = place + 1;
        Ok(place)
    }

    /// The next connection to a port, with its peer's address. `WouldBlock` where none waits.
    pub fn accept<R: Net>(
        &mut self,
        rt: &R,
        registry: &Registry,
        port: u16,
    ) -> io::Result<(TcpStream, SocketAddr)> {
        let place = self.place(rt, registry, port)?;
        match self.table.get(place) {
            Some(Some(listening)) => listening.listener.accept(),
            _ => Err(io::Error::from(io::ErrorKind::WouldBlock)),
        }
    }
}
