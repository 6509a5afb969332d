//! The socket of the system that stands for a socket of the chip.
ghost use Rattle.std.specs.Prelude.{◌<◌, length};
ghost use Rattle.link_trait.specs.Calls.{WriteFits, ReadFits};

use link_trait::{Linking, Reading, Shutting, Writing};
use mio::net::{TcpStream, UdpSocket};
use std::io;
use std::io::{ErrorKind, Read, Write};
use std::net::Shutdown;

/// The most bytes that one write or read moves.
const MOST: usize = 65_536;

/// A socket of the system.
#[derive(Drop)]
pub enum Socket {
    /// None.
    Closed,
    /// A connection, made or on its way.
    Stream(TcpStream),
    /// A socket for datagrams.
    Datagrams(UdpSocket),
}

/// The place of a socket of the chip.
#[derive(Drop)]
pub struct Place {
    /// The latest life of the chip's socket that made a call, 0 before any.
    life: u64,
    /// What stands there for that life.
    socket: Socket,
}

/// Whether an error says that there is nothing to do now.
pub fn is_later(error: &io::Error) -> bool {
    let kind = error.kind();
    kind == ErrorKind::WouldBlock || kind == ErrorKind::Interrupted
}

/// What a connection that could not be made comes to.
pub fn refusal(error: &io::Error) -> Linking {
    let kind = error.kind();
    if kind == ErrorKind::ConnectionRefused || kind == ErrorKind::ConnectionReset {
        Linking::Refused
    } else if kind == ErrorKind::TimedOut
        || kind == ErrorKind::HostUnreachable
        || kind == ErrorKind::NetworkUnreachable
    {
        Linking::TimedOut
    } else {
        Linking::Failed
    }
}

/// Whether a connection is made; false while it is on its way.
fn is_made(stream: &TcpStream) -> io::Result<bool> {
    if let Some(error) = stream.take_error()? {
        return Err(error);
    }
    match stream.peer_addr() {
        Ok(_) => Ok(true),
        Err(e) if e.kind() == ErrorKind::NotConnected => Ok(false),
        Err(e) => Err(e),
    }
}

impl Place {
    /// A place of which no life made a call.
    pub fn new() -> Place {
        Place {
            life: 0,
            socket: Socket::Closed,
        }
    }

    /// A life makes a call. What stood here for an earlier one is closed. False where a later life was here already.
    pub fn enter(&mut self, life: u64) -> bool {
        if self.life < life {
            self.life = life;
            self.socket = Socket::Closed;
        }
        self.life == life
    }

    /// Puts a socket here, and closes what stood here.
    pub fn put(&mut self, socket: Socket) {
        self.socket = socket;
    }

    /// Closes what stands here for a life, and nothing for another.
    pub fn forget(&mut self, life: u64) {
        if self.life == life {
            self.socket = Socket::Closed;
        }
    }

    /// Whether a connection stands here, made or on its way.
    pub fn has_stream(&self) -> bool {
        matches!(self.socket, Socket::Stream(_))
    }

    /// The socket for datagrams that stands here.
    pub fn datagrams(&self) -> Option<&UdpSocket> {
        match &self.socket {
            Socket::Datagrams(socket) => Some(socket),
            _ => None,
        }
    }

    /// What a connection that was begun has come to. One that came to nothing is closed.
    pub fn ask(&mut self) -> Linking {
        let Socket::Stream(stream) = &self.socket else {
            return Linking::Failed;
        };
        match is_made(stream) {
            Ok(true) => Linking::Done,
            Ok(false) => Linking::NotYet,
            Err(error) => {
                self.socket = Socket::Closed;
                refusal(&error)
            }
        }
    }

    /// Writes the first bytes of a piece.
    pub fn write(&mut self, piece: &[u8]) -> Writing
        ensures { WriteFits result piece.now }
    {
        let Socket::Stream(stream) = &mut self.socket else {
            return Writing::Failed;
        };
        match stream.write(&piece[..piece.len().min(MOST)]) {
            Ok(0) => Writing::NotYet,
            Ok(count) => Writing::Done(count as u32),
            Err(error) if is_later(&error) => Writing::NotYet,
            Err(_) => Writing::Failed,
        }
    }

    /// Reads into the first bytes of a buffer that is not empty.
    pub fn read(&mut self, buf: &mut [u8]) -> Reading
        requires { 0 < length buf.old }
        ensures { ReadFits result buf.new }
    {
        let Socket::Stream(stream) = &mut self.socket else {
            return Reading::Failed;
        };
        let most = buf.len().min(MOST);
        match stream.read(&mut buf[..most]) {
            Ok(0) => Reading::End,
            Ok(count) => Reading::Done(count as u32),
            Err(error) if is_later(&error) => Reading::NotYet,
            Err(_) => Reading::Failed,
        }
    }

    /// Ends the outgoing direction.
    pub fn shut(&mut self) -> Shutting {
        let Socket::Stream(stream) = &self.socket else {
            return Shutting::Failed;
        };
        match stream.shutdown(Shutdown::Write) {
            Ok(()) => Shutting::Done,
            Err(_) => Shutting::Failed,
        }
    }
}
