//! Datagrams over sockets of the system.
ghost use Rattle.std.specs.Prelude.{◌≤◌, IfOk, IfSome};
ghost use Rattle.chip_sheet.specs.Windows.{most_read};

use crate::places::is_later;
use link_trait::Sending;
use mio::net::UdpSocket;
use std::alloc::{AllocError, Global};
use std::io;
use std::io::ErrorKind;
use std::net::SocketAddr;

/// The longest body of a datagram that a socket of the chip takes, in bytes.
pub const MOST_READ: usize = 1472;

/// One byte more, so that a longer body shows.
const HEARD: usize = MOST_READ + 1;

/// The longest body that is sent, in bytes: a socket of the chip has no more room.
const MOST_SENT: usize = 16_384;

/// How many datagrams one call looks at.
const MOST_LOOKS: u32 = 64;

/// Room for the datagram of one call.
#[derive(Drop)]
pub struct Room {
    /// Where a body is put together that comes in two parts.
    joined: Vec<u8>,
    /// Where a datagram is received.
    heard: [u8; HEARD],
}

impl Room {
    /// Takes the room, which no call makes greater.
    ///
    /// # Errors
    /// Out of memory alone.
    pub fn new(alloc: Global) -> Result<Room, AllocError> {
        Ok(Room {
            joined: Vec::with_capacity(alloc, MOST_SENT)?,
            heard: [0; HEARD],
        })
    }

    /// Sends `head` and `tail` after it as one datagram.
    pub fn send(
        &mut self,
        socket: &UdpSocket,
        to: SocketAddr,
        head: &[u8],
        tail: &[u8],
    ) -> Sending {
        match self.try_send(socket, to, head, tail) {
            Ok(_) => Sending::Done,
            Err(error) if is_later(&error) => Sending::NotYet,
            Err(_) => Sending::Failed,
        }
    }

    /// The same, as the system answers it.
    fn try_send(
        &mut self,
        socket: &UdpSocket,
        to: SocketAddr,
        head: &[u8],
        tail: &[u8],
    ) -> io::Result<usize> {
        if tail.is_empty() {
            return socket.send_to(head, to);
        }
        if head.len().saturating_add(tail.len()) > MOST_SENT {
            return Err(io::Error::from(ErrorKind::InvalidInput));
        }
        self.joined.clear();
        self.joined.extend_from_slice(head)?;
        self.joined.extend_from_slice(tail)?;
        socket.send_to(&self.joined, to)
    }

    /// Receives the next datagram whose body is not too long, of the first 64: its length, and where it came from.
    pub fn receive(&mut self, socket: &UdpSocket) -> io::Result<Option<(usize, SocketAddr)>>
        ensures { IfOk result (λ got. IfSome got (λ pair. pair.0 ≤ most_read)) }
    {
        for _ in 0..MOST_LOOKS {
            match socket.recv_from(&mut self.heard) {
                Ok((count, from)) if count <= MOST_READ => return Ok(Some((count, from))),
                Ok(_) => {}
                Err(error) if is_later(&error) => return Ok(None),
                Err(error) => return Err(error),
            }
        }
        Ok(None)
    }

    /// The bytes that were received last.
    pub fn heard(&self) -> &[u8; HEARD] {
        &self.heard
    }
}
