//! Links to peers that act by their scripts.
ghost use Rattle.std.specs.Prelude.{◌≡◌, ◌≤◌, ◌<◌, ◌+◌, ◌^◌, ℕ, Bool, true, false, not, Some, None, length, set, get_or, map, max, min, IfOk, IfSome, slice_get, slice_index, ◌++◌, ◌&&◌, if◌then◌else◌};
ghost use Rattle.std.specs.List.{position};
ghost use Rattle.chip_sheet.specs.LinkAnswers.{LinkAnswer, Done};
ghost use Rattle.chip_sheet.specs.Windows.{most_read};
ghost use Rattle.link_trait.specs.Calls.{Call, Connect, Accept, Write, Read, SendTo, RecvFrom, Shut, DropConn, writing, linking, accepting, reading, sending, receiving, shutting, WriteFits, ReadFits, ReceiveFits};
ghost use Rattle.link_script.specs.Acting.{is_serving};
ghost use Rattle.link_script.specs.Start.{start_of, first_state};
ghost use Rattle.link_script.specs.Ends.{EndsOf};
ghost use Rattle.link_script.specs.Links.{played_of, IsEight};
ghost use Rattle.link_trait.specs.Shown.{IsFresh};
ghost use Rattle.link_script.specs.Play as play;
ghost use Rattle.link_script.specs.Play.{Plays, meeting, is_lost, later, risen, server_in, answer_or, acted_by, peers_by};

use crate::actor::Actor;
use crate::acts;
use crate::peer::{Connects, Peer};
use crate::wanted::Wanted;
use link_trait::{
    Accepting, Addr, ConnId, Linking, Links, Reading, Receiving, Routes, Sending, Shutting, Writing,
};
use std::alloc::{AllocError, Global};

/// Links in memory: each connection meets the first peer of a list that fits, and this peer then answers by its script.
#[derive(Drop)]
pub struct ScriptLinks {
    /// The peers, in the order of their list.
    actors: Vec<Actor>,
    /// Of each socket: the latest life on which a datagram went to nobody.
    lost: [Option<u64>; 8],
    /// Of each socket: the life on which its last write or send_to was made, where that call was answered NotYet; else 0.
    stalled: [u64; 8],
    /// How many calls failed.
    faults: u64,
    /// How many calls were answered NotYet.
    waits: u64,
    /// How many of these were a write or a send_to.
    stalls: u64,
}

/// How far a peer is.
#[derive(Clone, Copy, Debug)]
pub struct PeerEnd<'a> {
    /// The connection that it met.
    pub conn: Option<ConnId>,
    /// The bytes that it was given.
    pub given: &'a [u8],
    /// How many bytes were read of it, or 2^64 - 1 if there are more.
    pub fed: u64,
    /// How many of its calls failed, 0 or 1.
    pub faults: u64,
}

/// The life that is the later one.
fn later(latest: Option<u64>, life: u64) -> u64
    ensures { result ≡ later latest life }
{
    match latest {
        Some(other) => other.max(life),
        None => life,
    }
}

/// A count that rises, or stands.
fn risen(rises: bool, count: u64) -> u64
    ensures { result ≡ risen rises count }
{
    if rises {
        count.saturating_add(1)
    } else {
        count
    }
}

/// The peers before any call.
fn actors_of(alloc: Global, peers: Vec<Peer>) -> Result<Vec<Actor>, AllocError>
    ensures { IfOk result (λ actors. actors.items ≡ map start_of peers.items) }
{
    let mut actors = Vec::with_capacity(alloc, peers.len())?;
    for peer in peers {
        actors.push(Actor::new(alloc, peer)?)?;
    }
    Ok(actors)
}

impl ScriptLinks {
    /// Links to these peers, of which no call was made. All room that the peers will need is reserved.
    ///
    /// # Errors
    /// Out of memory alone. No call takes memory.
    pub fn new(alloc: Global, peers: Vec<Peer>) -> Result<ScriptLinks, AllocError>
        ensures start { IfOk result (λ links. played_of links ≡ first_state peers.items) }
        ensures fresh { IfOk result (λ links. IsFresh (play.shown (played_of links))) }
    {
        Ok(ScriptLinks {
            actors: actors_of(alloc, peers)?,
            lost: [None; 8],
            stalled: [0; 8],
            faults: 0,
            waits: 0,
            stalls: 0,
        })
    }

    /// How far a peer is, by its place in the list from 0; `None` exactly where there is none.
    pub fn peer(&self, i: u32) -> Option<PeerEnd<'_>>
        ensures { EndsOf result (slice_get (played_of self.now).peers i) }
    {
        match self.actors.get(i as usize) {
            Some(actor) => Some(PeerEnd {
                conn: actor.conn(),
                given: actor.given(),
                fed: actor.heard(),
                faults: actor.faults(),
            }),
            None => None,
        }
    }

    /// Whether a datagram of its life or a later one went to nobody.
    fn is_lost(&self, c: ConnId) -> bool
        requires { c.sn < 8 }
        ensures { result ≡ is_lost (played_of self.now).lost c }
    {
        match self.lost[c.sn as usize] {
            Some(latest) => c.life <= latest,
            None => false,
        }
    }

    /// Lets a connection ask a peer, where none serves it.
    fn take(&mut self, c: ConnId, wanted: Wanted)
        requires { c.sn < 8 }
        ensures { played_of self.new ≡ record (played_of self.old) { peers = meeting (played_of self.old) c (Some wanted) } }
    {
        let tells = !self.is_lost(c);
        acts::take(&mut self.actors, c, wanted, tells);
    }

    /// A datagram of a connection goes to nobody.
    fn lose(&mut self, c: ConnId)
        requires { c.sn < 8 }
        ensures { played_of self.new ≡ record (played_of self.old) {
          lost = set self.old.lost c.sn (Some (later (get_or self.old.lost c.sn None) c.life));
        } }
    {
        let n = c.sn as usize;
        self.lost[n] = Some(later(self.lost[n], c.life));
    }

    /// Counts an answer.
    fn count(&mut self, failed: bool, waited: bool)
        ensures { played_of self.new ≡ record (played_of self.old) {
          faults = risen failed self.old.faults;
          waits = risen waited self.old.waits;
        } }
    {
        self.faults = risen(failed, self.faults);
        self.waits = risen(waited, self.waits);
    }

    /// Counts the answer of a write or a datagram that was sent.
    fn count_outgoing(&mut self, c: ConnId, failed: bool, waited: bool)
        requires { c.sn < 8 }
        ensures { played_of self.new ≡ record (played_of self.old) {
          faults = risen failed self.old.faults;
          waits = risen waited self.old.waits;
          stalls = risen waited self.old.stalls;
          stalled = set self.old.stalled c.sn (if waited then c.life else 0);
        } }
    {
        self.faults = risen(failed, self.faults);
        self.waits = risen(waited, self.waits);
        self.stalls = risen(waited, self.stalls);
        self.stalled[c.sn as usize] = if waited { c.life } else { 0 };
    }

    /// A write, whole.
    fn play_write(&mut self, c: ConnId, piece: &[u8]) -> Writing
        requires { c.sn < 8 }
        ensures plays { Plays (played_of self.old) (Write c piece.now) (writing result) (played_of self.new) }
        ensures eight { IsEight (played_of self.old) }
        ensures fits { WriteFits result piece.now }
    {
        match acts::write(&mut self.actors, c, piece) {
            Writing::Done(count) => {
                self.count_outgoing(c, false, false);
                Writing::Done(count)
            }
            Writing::NotYet => {
                self.count_outgoing(c, false, true);
                Writing::NotYet
            }
            Writing::Failed => {
                self.count_outgoing(c, true, false);
                Writing::Failed
            }
        }
    }

    /// A datagram of a connection, whole.
    fn play_recv(&mut self, c: ConnId, port: u16, buf: &mut [u8]) -> Receiving
        requires socket { c.sn < 8 }
        requires room { most_read ≤ length buf.old }
        ensures plays { Plays (played_of self.old) (RecvFrom c port (length buf.old)) (receiving result buf.new) (played_of self.new) }
        ensures eight { IsEight (played_of self.old) }
        ensures fits { ReceiveFits result }
    {
        self.take(c, Wanted::UdpOf(port));
        match acts::recv_from(&mut self.actors, c, port, buf) {
            Receiving::Done(count, from) => Receiving::Done(count, from),
            Receiving::NotYet => {
                self.count(false, true);
                Receiving::NotYet
            }
            Receiving::Failed => {
                self.count(true, false);
                Receiving::Failed
            }
        }
    }

    /// A read, whole.
    fn play_read(&mut self, c: ConnId, buf: &mut [u8]) -> Reading
        requires { 0 < length buf.old }
        ensures plays { Plays (played_of self.old) (Read c (length buf.old)) (reading result buf.new) (played_of self.new) }
        ensures eight { IsEight (played_of self.old) }
        ensures fits { ReadFits result buf.new }
    {
        match acts::read(&mut self.actors, c, buf) {
            Reading::Done(count) => Reading::Done(count),
            Reading::NotYet => {
                self.count(false, true);
                Reading::NotYet
            }
            Reading::End => Reading::End,
            Reading::Failed => {
                self.count(true, false);
                Reading::Failed
            }
        }
    }

    /// A connection to an address, whole.
    fn play_connect(&mut self, c: ConnId, to: Addr) -> Linking
        requires { c.sn < 8 }
        ensures plays { Plays (played_of self.old) (Connect c to) (linking result) (played_of self.new) }
        ensures eight { IsEight (played_of self.old) }
    {
        let otherwise = acts::refusal(&self.actors, to);
        self.take(c, Wanted::ServerAt(to));
        match acts::connect(&mut self.actors, c, to, otherwise) {
            Linking::Done => Linking::Done,
            Linking::NotYet => {
                self.count(false, true);
                Linking::NotYet
            }
            Linking::Refused => Linking::Refused,
            Linking::TimedOut => Linking::TimedOut,
            Linking::Failed => {
                self.count(true, false);
                Linking::Failed
            }
        }
    }

    /// A peer that connects to a port, whole.
    fn play_accept(&mut self, c: ConnId, port: u16) -> Accepting
        requires { c.sn < 8 }
        ensures plays { Plays (played_of self.old) (Accept c port) (accepting result) (played_of self.new) }
        ensures eight { IsEight (played_of self.old) }
    {
        self.take(c, Wanted::ClientOf(port));
        match acts::accept(&mut self.actors, c, port) {
            Accepting::Done(from) => Accepting::Done(from),
            Accepting::NotYet => {
                self.count(false, true);
                Accepting::NotYet
            }
            Accepting::Failed => {
                self.count(true, false);
                Accepting::Failed
            }
        }
    }

    /// A datagram to the peer that serves a connection.
    fn send_there(&mut self, c: ConnId, port: u16, to: Addr, head: &[u8], tail: &[u8]) -> Sending
        ensures answer { sending result ≡ answer_or Done (SendTo c port to (head.now ++ tail.now)) (server_in (played_of self.old).peers c) }
        ensures left { played_of self.new ≡ record (played_of self.old) {
          peers = peers_by (played_of self.old).peers c (SendTo c port to (head.now ++ tail.now)) (server_in (played_of self.old).peers c);
        } }
    {
        acts::send_to(&mut self.actors, c, port, to, head, tail)
    }

    /// A datagram to an address, but for the count: to the peer that serves the connection, or to nobody.
    #[tactic(auto, using(crate::proofs::Changes::acted_there, crate::proofs::Changes::acted_none, crate::proofs::Changes::answer_none))]
    fn send_on(&mut self, c: ConnId, port: u16, to: Addr, head: &[u8], tail: &[u8]) -> Sending
        requires { c.sn < 8 }
        ensures answer { sending result ≡ answer_or Done (SendTo c port to (head.now ++ tail.now)) (server_in (played_of self.old).peers c) }
        ensures left { played_of self.new ≡ acted_by (played_of self.old) c (SendTo c port to (head.now ++ tail.now))
            (played_of self.old).peers (server_in (played_of self.old).peers c) }
    {
        match acts::serving(&self.actors, c) {
            Some(_) => self.send_there(c, port, to, head, tail),
            None => {
                self.lose(c);
                Sending::Done
            }
        }
    }

    /// A datagram to an address, whole.
    fn play_send(&mut self, c: ConnId, port: u16, to: Addr, head: &[u8], tail: &[u8]) -> Sending
        requires { c.sn < 8 }
        ensures plays { Plays (played_of self.old) (SendTo c port to (head.now ++ tail.now)) (sending result) (played_of self.new) }
        ensures eight { IsEight (played_of self.old) }
    {
        self.take(c, Wanted::UdpOf(port));
        match self.send_on(c, port, to, head, tail) {
            Sending::Done => {
                self.count_outgoing(c, false, false);
                Sending::Done
            }
            Sending::NotYet => {
                self.count_outgoing(c, false, true);
                Sending::NotYet
            }
            Sending::Failed => {
                self.count_outgoing(c, true, false);
                Sending::Failed
            }
        }
    }

    /// The end of what is sent, whole.
    fn play_shut(&mut self, c: ConnId) -> Shutting
        ensures plays { Plays (played_of self.old) (Shut c) (shutting result) (played_of self.new) }
        ensures eight { IsEight (played_of self.old) }
    {
        match acts::shut(&mut self.actors, c) {
            Shutting::Done => Shutting::Done,
            Shutting::Failed => {
                self.count(true, false);
                Shutting::Failed
            }
        }
    }

    /// A connection that is forgotten, whole.
    fn play_drop(&mut self, c: ConnId)
        ensures plays { Plays (played_of self.old) (DropConn c) Done (played_of self.new) }
        ensures eight { IsEight (played_of self.old) }
    {
        acts::drop_conn(&mut self.actors, c);
    }
}

impl Links for ScriptLinks {
    ghost use Rattle.std.specs.Prelude.{◌≡◌, ◌<◌, ◌≤◌, ◌++◌, ℕ, true, length};
    ghost use Rattle.chip_sheet.specs.LinkAnswers.{LinkAnswer, Done};
    ghost use Rattle.link_script.specs.Play.{shown, Plays};
    ghost use Rattle.link_script.specs.Links.{played_of};

    ghost shown = { λ l. shown (played_of l) };

    ghost effect = { λ l call answer m. Plays (played_of l) call answer (played_of m) };

    fn set_routes(&mut self, _routes: Routes) {}

    fn connect(&mut self, c: ConnId, to: Addr) -> Linking {
        self.play_connect(c, to)
    }

    fn accept(&mut self, c: ConnId, port: u16) -> Accepting {
        self.play_accept(c, port)
    }

    fn write(&mut self, c: ConnId, piece: &[u8]) -> Writing {
        self.play_write(c, piece)
    }

    fn read(&mut self, c: ConnId, buf: &mut [u8]) -> Reading {
        self.play_read(c, buf)
    }

    fn send_to(&mut self, c: ConnId, port: u16, to: Addr, head: &[u8], tail: &[u8]) -> Sending {
        self.play_send(c, port, to, head, tail)
    }

    fn recv_from(&mut self, c: ConnId, port: u16, buf: &mut [u8]) -> Receiving {
        self.play_recv(c, port, buf)
    }

    fn shut(&mut self, c: ConnId) -> Shutting {
        self.play_shut(c)
    }

    fn drop_conn(&mut self, c: ConnId) {
        self.play_drop(c)
    }
}
