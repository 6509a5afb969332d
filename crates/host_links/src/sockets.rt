//! The calls of the chip's sockets on those of the system.
ghost use Rattle.std.specs.Prelude.{◌<◌, ◌≤◌, length, IfOk, IfSome};
ghost use Rattle.chip_sheet.specs.Windows.{most_read};
ghost use Rattle.link_trait.specs.Calls.{WriteFits, ReadFits, ReceiveFits};

use crate::datagrams::Room;
use crate::listening::Listeners;
use crate::naming::{addr_of, chip_addr, host_addr, host_port, own_addr, system_addr};
use crate::places::{Place, Socket, is_later, refusal};
use link_trait::{
    Accepting, Addr, ConnId, Linking, Reading, Receiving, Routes, Sending, Shutting, Writing,
};
use mio::net::{TcpStream, UdpSocket};
use mio::{Interest, Registry, Token};
use std::alloc::{AllocError, Global};
use std::io::ErrorKind;
use std::net::{Net, SocketAddr};
use std::{array, io};

/// Sockets of the system, one for each socket of the chip, and what they share.
#[derive(Drop)]
pub struct Sockets<'a, R> {
    /// The handle by which the system is asked.
    rt: &'a R,
    /// Where sockets are registered, so that a poll sees them.
    registry: Registry,
    /// Which ports and addresses of the host stand for those of the firmware.
    routes: Routes,
    /// The places of the chip's sockets 0 to 7.
    places: [Place; 8],
    /// The listeners.
    listeners: Listeners,
    /// Room for a datagram.
    room: Room,
}

impl<'a, R: Net> Sockets<'a, R> {
    /// No sockets, and no routes. All memory that the calls need is taken.
    ///
    /// # Errors
    /// Out of memory alone.
    pub fn new(rt: &'a R, alloc: Global, registry: Registry) -> Result<Self, AllocError> {
        Ok(Sockets {
            rt,
            registry,
            routes: Routes::new(alloc),
            places: array::from_fn(|_| Place::new()),
            listeners: Listeners::new(),
            room: Room::new(alloc)?,
        })
    }

    /// Takes these routes in place of those before.
    pub fn set_routes(&mut self, routes: Routes) {
        self.routes = routes;
    }

    /// Keeps a connection in a place, registered for readiness both ways. Small pieces go out at once, as the chip sends them.
    fn keep(&mut self, n: usize, mut stream: TcpStream) -> io::Result<()>
        requires { n < 8 }
    {
        stream.set_nodelay(true)?;
        let both = Interest::READABLE | Interest::WRITABLE;
        self.registry.register(&mut stream, Token(n), both)?;
        self.places[n].put(Socket::Stream(stream));
        Ok(())
    }

    /// Begins a connection to an address of the host.
    fn begin(&mut self, n: usize, host: Addr) -> io::Result<()>
        requires { n < 8 }
    {
        let stream = TcpStream::connect(self.rt, system_addr(host))?;
        self.keep(n, stream)
    }

    /// Starts a connection at the first call, and asks after it at later ones.
    pub fn connect(&mut self, c: ConnId, to: Addr) -> Linking
        requires { c.sn < 8 }
    {
        let n = c.sn as usize;
        if !self.places[n].enter(c.life) {
            return Linking::Failed;
        }
        if self.places[n].has_stream() {
            return self.places[n].ask();
        }
        let Some(host) = host_addr(self.routes.routes(), to) else {
            return Linking::TimedOut;
        };
        match self.begin(n, host) {
            Ok(()) => self.places[n].ask(),
            Err(error) => refusal(&error),
        }
    }

    /// Takes the next connection to a port of the host, and gives its peer's address.
    fn take(&mut self, n: usize, port: u16) -> io::Result<SocketAddr>
        requires { n < 8 }
    {
        let (stream, from) = self.listeners.accept(self.rt, &self.registry, port)?;
        self.keep(n, stream)?;
        Ok(from)
    }

    /// Waits for a peer on a port.
    pub fn accept(&mut self, c: ConnId, port: u16) -> Accepting
        requires { c.sn < 8 }
    {
        let n = c.sn as usize;
        if !self.places[n].enter(c.life) {
            return Accepting::Failed;
        }
        let port = host_port(self.routes.listens(), port);
        match self.take(n, port) {
            Ok(from) => match addr_of(from) {
                Some(from) => Accepting::Done(from),
                None => Accepting::Failed,
            },
            Err(error) if is_later(&error) || error.kind() == ErrorKind::ConnectionAborted => {
                Accepting::NotYet
            }
            Err(_) => Accepting::Failed,
        }
    }

    /// Writes the first bytes of a piece.
    pub fn write(&mut self, c: ConnId, piece: &[u8]) -> Writing
        requires { c.sn < 8 }
        ensures { WriteFits result piece.now }
    {
        let place = &mut self.places[c.sn as usize];
        if !place.enter(c.life) {
            return Writing::Failed;
        }
        place.write(piece)
    }

    /// Reads into the first bytes of a buffer that is not empty.
    pub fn read(&mut self, c: ConnId, buf: &mut [u8]) -> Reading
        requires socket { c.sn < 8 }
        requires some { 0 < length buf.old }
        ensures { ReadFits result buf.new }
    {
        let place = &mut self.places[c.sn as usize];
        if !place.enter(c.life) {
            return Reading::Failed;
        }
        place.read(buf)
    }

    /// Binds a socket for datagrams to a port at the first call of a life.
    fn bind(&mut self, c: ConnId, port: u16) -> io::Result<()>
        requires { c.sn < 8 }
    {
        let n = c.sn as usize;
        if !self.places[n].enter(c.life) {
            return Err(io::Error::from(ErrorKind::NotConnected));
        }
        if self.places[n].datagrams().is_some() {
            return Ok(());
        }
        let port = host_port(self.routes.listens(), port);
        let mut socket = UdpSocket::bind(self.rt, own_addr(port))?;
        let both = Interest::READABLE | Interest::WRITABLE;
        self.registry.register(&mut socket, Token(n), both)?;
        self.places[n].put(Socket::Datagrams(socket));
        Ok(())
    }

    /// Sends `head` and `tail` after it as one datagram. Without a route to its address it is lost.
    pub fn send_to(&mut self, c: ConnId, port: u16, to: Addr, head: &[u8], tail: &[u8]) -> Sending
        requires { c.sn < 8 }
    {
        if self.bind(c, port).is_err() {
            return Sending::Failed;
        }
        let Some(host) = host_addr(self.routes.routes(), to) else {
            return Sending::Done;
        };
        match self.places[c.sn as usize].datagrams() {
            Some(socket) => self.room.send(socket, system_addr(host), head, tail),
            None => Sending::Failed,
        }
    }

    /// Receives the next datagram that came to a port, and where it came from.
    fn receive(&mut self, c: ConnId, port: u16) -> io::Result<Option<(usize, SocketAddr)>>
        requires { c.sn < 8 }
        ensures { IfOk result (λ got. IfSome got (λ pair. pair.0 ≤ most_read)) }
    {
        self.bind(c, port)?;
        match self.places[c.sn as usize].datagrams() {
            Some(socket) => self.room.receive(socket),
            None => Ok(None),
        }
    }

    /// Puts the next datagram that came to a port at the start of a buffer.
    pub fn recv_from(&mut self, c: ConnId, port: u16, buf: &mut [u8]) -> Receiving
        requires socket { c.sn < 8 }
        requires room { most_read ≤ length buf.old }
        ensures { ReceiveFits result }
    {
        let (count, from) = match self.receive(c, port) {
            Ok(Some(got)) => got,
            Ok(None) => return Receiving::NotYet,
            Err(_) => return Receiving::Failed,
        };
        let Some(from) = addr_of(from) else {
            return Receiving::Failed;
        };
        buf[..count].copy_from_slice(&self.room.heard()[..count]);
        Receiving::Done(count as u32, chip_addr(self.routes.routes(), from))
    }

    /// Ends the outgoing direction.
    pub fn shut(&mut self, c: ConnId) -> Shutting
        requires { c.sn < 8 }
    {
        let place = &mut self.places[c.sn as usize];
        if !place.enter(c.life) {
            return Shutting::Failed;
        }
        place.shut()
    }

    /// Forgets a connection, and closes its socket.
    pub fn drop_conn(&mut self, c: ConnId)
        requires { c.sn < 8 }
    {
        self.places[c.sn as usize].forget(c.life);
    }
}
