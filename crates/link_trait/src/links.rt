//! The trait of links, and the answers of its calls.
ghost use Rattle.std.specs.Prelude.{◌≡◌, ◌<◌, ◌≤◌, ◌++◌, ℕ, true, length};
ghost use Rattle.chip_sheet.specs.LinkAnswers.{LinkAnswer, Done};
ghost use Rattle.chip_sheet.specs.Windows.{most_read};
ghost use Rattle.link_trait.specs.Calls.{Call, SetRoutes, Connect, Accept, Write, Read, SendTo, RecvFrom, Shut, DropConn, linking, accepting, writing, reading, sending, receiving, shutting, WriteFits, ReadFits, ReceiveFits};
ghost use Rattle.link_trait.specs.Shown.{Shown, Counts, Makes, Lists};

use crate::routes::Routes;
use chip_sheet::event::{Addr, ConnId};

/// What a connection to a peer came to.
#[derive(Clone, Copy, Debug, PartialEq, Eq)]
pub enum Linking {
    /// It is made.
    Done,
    /// It is on its way.
    NotYet,
    /// The peer refused it.
    Refused,
    /// No peer answered in time.
    TimedOut,
    /// The call failed, and the count of faults rose.
    Failed,
}

/// What waiting for a peer came to.
#[derive(Clone, Copy, Debug, PartialEq, Eq)]
pub enum Accepting {
    /// The peer at this address connected.
    Done(Addr),
    /// None did so far.
    NotYet,
    /// The call failed, and the count of faults rose.
    Failed,
}

/// What a write came to.
#[derive(Clone, Copy, Debug, PartialEq, Eq)]
pub enum Writing {
    /// So many bytes were taken, from 1 on.
    Done(u32),
    /// None can be taken now.
    NotYet,
    /// The call failed, and the count of faults rose.
    Failed,
}

/// What a read came to.
#[derive(Clone, Copy, Debug, PartialEq, Eq)]
pub enum Reading {
    /// So many bytes came, from 1 on.
    Done(u32),
    /// None are there so far.
    NotYet,
    /// The peer sends no more.
    End,
    /// The call failed, and the count of faults rose.
    Failed,
}

/// What sending a datagram came to.
#[derive(Clone, Copy, Debug, PartialEq, Eq)]
pub enum Sending {
    /// It was taken whole.
    Done,
    /// It cannot be taken now.
    NotYet,
    /// The call failed, and the count of faults rose.
    Failed,
}

/// What receiving a datagram came to.
#[derive(Clone, Copy, Debug, PartialEq, Eq)]
pub enum Receiving {
    /// One with so many bytes, 0 to 1472, came from this address.
    Done(u32, Addr),
    /// None is there so far.
    NotYet,
    /// The call failed, and the count of faults rose.
    Failed,
}

/// What ending the outgoing direction came to.
#[derive(Clone, Copy, Debug, PartialEq, Eq)]
pub enum Shutting {
    /// It has ended.
    Done,
    /// The call failed, and the count of faults rose.
    Failed,
}

/// The connections below the chip's sockets, one for each life of a socket. No call waits.
///
/// Every call is made on a connection of one of the sockets 0 to 7. Each call has up to five clauses: `effect`, what the kind of
/// links says of the call with its answer; `fits`, how many bytes an answer may name; `counts`, where the counts rise and what
/// stalled; `makes`, which connections are made; `lists`, what the connections that are told were given and gave. The last three
/// are the same three records at every call.
pub trait Links {
    /// What the links show.
    ghost shown: { Self → Shown };

    /// What a call with its arguments and its answer makes of the links.
    ghost effect: { Self → Call → LinkAnswer → Self → Type 0 };

    /// Takes these routes in place of those before.
    fn set_routes(&mut self, routes: Routes)
        ensures effect { effect self.old (SetRoutes routes) Done self.new }
        ensures counts { Counts (shown self.old) (SetRoutes routes) Done (shown self.new) }
        ensures makes { Makes (shown self.old) (SetRoutes routes) Done (shown self.new) }
        ensures lists { Lists (shown self.old) (SetRoutes routes) Done (shown self.new) };

    /// Starts a connection to an address at its first call, and asks after it at later ones.
    fn connect(&mut self, c: ConnId, to: Addr) -> Linking
        requires { c.sn < 8 }
        ensures effect { effect self.old (Connect c to) (linking result) self.new }
        ensures counts { Counts (shown self.old) (Connect c to) (linking result) (shown self.new) }
        ensures makes { Makes (shown self.old) (Connect c to) (linking result) (shown self.new) }
        ensures lists { Lists (shown self.old) (Connect c to) (linking result) (shown self.new) };

    /// Waits for a peer on a port, 0 to 65535, and gives its address. Several connections may wait on one port.
    fn accept(&mut self, c: ConnId, port: u16) -> Accepting
        requires { c.sn < 8 }
        ensures effect { effect self.old (Accept c port) (accepting result) self.new }
        ensures counts { Counts (shown self.old) (Accept c port) (accepting result) (shown self.new) }
        ensures makes { Makes (shown self.old) (Accept c port) (accepting result) (shown self.new) }
        ensures lists { Lists (shown self.old) (Accept c port) (accepting result) (shown self.new) };

    /// Takes the first bytes of a piece that is not empty, at least one, on a connection that is made.
    fn write(&mut self, c: ConnId, piece: &[u8]) -> Writing
        requires socket { c.sn < 8 }
        requires some { 0 < length piece.now }
        requires made { (shown self.old).made c ≡ true }
        ensures effect { effect self.old (Write c piece.now) (writing result) self.new }
        ensures fits { WriteFits result piece.now }
        ensures counts { Counts (shown self.old) (Write c piece.now) (writing result) (shown self.new) }
        ensures makes { Makes (shown self.old) (Write c piece.now) (writing result) (shown self.new) }
        ensures lists { Lists (shown self.old) (Write c piece.now) (writing result) (shown self.new) };

    /// Puts bytes of a connection that is made at the start of a buffer that is not empty, at least one. The rest of the buffer
    /// may hold anything, after every answer.
    fn read(&mut self, c: ConnId, buf: &mut [u8]) -> Reading
        requires socket { c.sn < 8 }
        requires some { 0 < length buf.old }
        requires made { (shown self.old).made c ≡ true }
        ensures effect { effect self.old (Read c (length buf.old)) (reading result buf.new) self.new }
        ensures fits { ReadFits result buf.new }
        ensures counts { Counts (shown self.old) (Read c (length buf.old)) (reading result buf.new) (shown self.new) }
        ensures makes { Makes (shown self.old) (Read c (length buf.old)) (reading result buf.new) (shown self.new) }
        ensures lists { Lists (shown self.old) (Read c (length buf.old)) (reading result buf.new) (shown self.new) };

    /// Sends `head` and `tail` after it as one datagram, from a port to an address. It is taken whole.
    fn send_to(&mut self, c: ConnId, port: u16, to: Addr, head: &[u8], tail: &[u8]) -> Sending
        requires { c.sn < 8 }
        ensures effect { effect self.old (SendTo c port to (head.now ++ tail.now)) (sending result) self.new }
        ensures counts { Counts (shown self.old) (SendTo c port to (head.now ++ tail.now)) (sending result) (shown self.new) }
        ensures makes { Makes (shown self.old) (SendTo c port to (head.now ++ tail.now)) (sending result) (shown self.new) }
        ensures lists { Lists (shown self.old) (SendTo c port to (head.now ++ tail.now)) (sending result) (shown self.new) };

    /// Puts one datagram that came to a port, of 0 to 1472 bytes, at the start of a buffer of at least 1472. The rest of the
    /// buffer may hold anything, after every answer.
    fn recv_from(&mut self, c: ConnId, port: u16, buf: &mut [u8]) -> Receiving
        requires socket { c.sn < 8 }
        requires room { most_read ≤ length buf.old }
        ensures effect { effect self.old (RecvFrom c port (length buf.old)) (receiving result buf.new) self.new }
        ensures fits { ReceiveFits result }
        ensures counts { Counts (shown self.old) (RecvFrom c port (length buf.old)) (receiving result buf.new) (shown self.new) }
        ensures makes { Makes (shown self.old) (RecvFrom c port (length buf.old)) (receiving result buf.new) (shown self.new) }
        ensures lists { Lists (shown self.old) (RecvFrom c port (length buf.old)) (receiving result buf.new) (shown self.new) };

    /// Ends the outgoing direction.
    fn shut(&mut self, c: ConnId) -> Shutting
        requires { c.sn < 8 }
        ensures effect { effect self.old (Shut c) (shutting result) self.new }
        ensures counts { Counts (shown self.old) (Shut c) (shutting result) (shown self.new) }
        ensures makes { Makes (shown self.old) (Shut c) (shutting result) (shown self.new) }
        ensures lists { Lists (shown self.old) (Shut c) (shutting result) (shown self.new) };

    /// Forgets a connection. On an unknown one it does nothing.
    fn drop_conn(&mut self, c: ConnId)
        requires { c.sn < 8 }
        ensures effect { effect self.old (DropConn c) Done self.new }
        ensures counts { Counts (shown self.old) (DropConn c) Done (shown self.new) }
        ensures makes { Makes (shown self.old) (DropConn c) Done (shown self.new) }
        ensures lists { Lists (shown self.old) (DropConn c) Done (shown self.new) };
}
