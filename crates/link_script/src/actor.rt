//! One peer as it acts.
ghost use Rattle.std.specs.Prelude.{◌≡◌, ◌≤◌, ◌<◌, ◌+◌, ◌-◌, ◌^◌, ◌==◌, ℕ, Bool, drop, true, false, not, Some, length, take, min, IfOk, [], ◌∷◌, ◌++◌, if◌then◌else◌};
ghost use Rattle.std.specs.List.{position};
ghost use Rattle.chip_sheet.specs.LinkAnswers.{Done};
ghost use Rattle.chip_sheet.specs.Windows.{most_read};
ghost use Rattle.link_trait.specs.Calls.{writing, reading, sending, receiving, shutting, WriteFits, ReadFits, ReceiveFits};
ghost use Rattle.link_script.specs.Acting.{begun, asked, keeps_waiting, is_owing, lowered, is_move, puts_off, read_from, receive_from, left_by, is_serving, is_udp, is_void, front, part, moved, moved_to, countable, counted, fails, counted_answer, counted_after, write_answer, write_after, send_answer, send_after, read_answer, read_after, receive_answer, is_ready, takes_of, takes_whole, entry, used_after, has_ended, fed, faults_of, is_willing, room_left, within, allows, read_of, chunk_at};
ghost use Rattle.link_script.specs.Play.{suits, is_wanted, same_address};
ghost use Rattle.link_script.specs.Start.{start_of};

use crate::peer::{Chunk, Connects, Peer, PeerKind};
use crate::wanted::Wanted;
use link_trait::{Addr, ConnId, Reading, Receiving, Sending, Shutting, Writing};
use std::alloc::{AllocError, Global};
use std::marker::Model;

/// The most bytes of a datagram.
pub const MOST_BYTES: usize = 1472;

/// The most datagrams that a peer takes.
pub const MOST_DATAGRAMS: usize = 1024;

/// The most bytes that the answer of a read can count.
pub const MOST_COUNTED: usize = 4_294_967_295;

/// A peer with its script, and how far it is.
#[derive(Drop)]
pub struct Actor {
    /// The script.
    peer: Peer,
    /// The connection that it met.
    conn: Option<ConnId>,
    /// Whether that connection's bytes are told.
    tells: bool,
    /// Whether that connection is made and not dropped.
    made: bool,
    /// How many calls were made on it.
    calls: u64,
    /// How many entries of `takes` are used.
    used: usize,
    /// What it was given.
    given: Vec<u8>,
    /// Where the datagrams among it went.
    dests: Vec<Addr>,
    /// How many chunks are read or passed over.
    next: usize,
    /// How many bytes of the next chunk are read.
    at: usize,
    /// How many times it still answers NotYet before its next move.
    owes: u16,
    /// How many bytes were read in all.
    heard: u64,
}

impl Model for Actor {
    ghost use Rattle.link_script.specs.Acting.{Acting};

    ghost Value = { Acting };

    ghost use Rattle.link_script.specs.Kept.{acting_of, IsSound};

    ghost view = { acting_of };

    ghost invariant = { IsSound };
}

/// Where reading stands.
#[derive(Clone, Copy)]
struct Place {
    /// How many chunks are read or passed over.
    next: usize,
    /// How many bytes of the next chunk are read.
    at: usize,
    /// How many times it still answers NotYet before its next move.
    owes: u16,
    /// How many bytes were read in all.
    heard: u64,
}

/// Whether a chunk counts as read at once.
fn is_void(kind: PeerKind, chunk: &Chunk) -> bool
    ensures { result ≡ is_void kind chunk.now }
{
    match kind {
        PeerKind::Udp => chunk.bytes.len() > MOST_BYTES,
        _ => chunk.bytes.is_empty(),
    }
}

/// Whether a peer serves the connection that it meets: a server may refuse, or never answer.
fn is_willing(peer: &Peer) -> bool
    ensures { result ≡ is_willing peer.now }
{
    match peer.kind {
        PeerKind::Server => matches!(peer.connect, Connects::Fine),
        _ => true,
    }
}

/// Whether two addresses are the same.
fn is_same(a: &Addr, b: &Addr) -> bool
    ensures { result ≡ same_address a.now b.now }
{
    a.ip == b.ip && a.port == b.port
}

/// Whether a peer is of that kind, with that address or port.
fn is_wanted(peer: &Peer, wanted: Wanted) -> bool
    ensures { result ≡ is_wanted wanted peer.now }
{
    match wanted {
        Wanted::ServerAt(to) => matches!(peer.kind, PeerKind::Server) && is_same(&peer.addr, &to),
        Wanted::ClientOf(port) => matches!(peer.kind, PeerKind::Client) && peer.chip == port,
        Wanted::UdpOf(port) => matches!(peer.kind, PeerKind::Udp) && peer.chip == port,
    }
}

/// How many of so many bytes an entry of `takes` allows.
fn allowed(entry: Option<u32>, offered: usize) -> usize
    ensures { result ≡ within entry offered }
{
    match entry {
        Some(most) => offered.min(most as usize),
        None => offered,
    }
}

/// How many chunks of a list count as read at once before the first that does not.
fn passed_over(kind: PeerKind, chunks: &[Chunk]) -> Option<usize>
    ensures { result ≡ position (λ chunk. not (is_void kind chunk)) chunks.now }
{
    chunks.iter().position(|chunk| !is_void(kind, chunk))
}

/// How many chunks from a place on count as read at once before the first that does not.
fn first_full(peer: &Peer, next: usize) -> Option<usize>
    requires { next ≤ length peer.now.say }
    ensures { result ≡ position (λ chunk. not (is_void peer.now.kind chunk)) (drop next peer.now.say) }
{
    let chunks: &[Chunk] = &peer.say;
    passed_over(peer.kind, &chunks[next..])
}

/// Copies the first bytes, at most so many, to the start of a buffer.
fn copy_first(bytes: &[u8], most: usize, buf: &mut [u8]) -> usize
    requires { most ≤ length buf.old }
    ensures copied { take result buf.new ≡ take most bytes.now }
    ensures count { result ≡ length (take most bytes.now) }
    ensures few { result ≤ most }
{
    let count = bytes.len().min(most);
    buf[..count].copy_from_slice(&bytes[..count]);
    count
}

/// The next chunk, and how many bytes of it are read, once so many bytes of a chunk are: where these are all, it is the one after
/// it.
fn place_after(chunk: usize, at: usize, most: usize) -> (usize, usize)
    requires { chunk < 2 ^ 63 }
    ensures next { result.0 ≡ (if at == most then chunk + 1 else chunk) }
    ensures at { result.1 ≡ (if at == most then 0 else at) }
{
    if at == most {
        (chunk + 1, 0)
    } else {
        (chunk, at)
    }
}

impl Actor {
    /// A peer that met no connection so far. It reserves all room that it will need.
    ///
    /// # Errors
    /// Out of memory alone.
    pub fn new(alloc: Global, peer: Peer) -> Result<Actor, AllocError>
        ensures { IfOk result (λ actor. actor ≡ start_of peer) }
    {
        let room = peer.room as usize;
        let owes = peer.lag;
        Ok(Actor {
            peer,
            conn: None,
            tells: false,
            made: false,
            calls: 0,
            used: 0,
            given: Vec::with_capacity(alloc, room)?,
            dests: Vec::with_capacity(alloc, MOST_DATAGRAMS)?,
            next: 0,
            at: 0,
            owes,
            heard: 0,
        })
    }

    /// How many NotYets it owes before each move.
    fn lag(&self) -> u16
        ensures { result ≡ self.now.script.lag }
    {
        self.peer.lag
    }

    /// Meets a connection, and begins its script. `tells` says whether the connection's bytes are told.
    fn begin(&mut self, c: ConnId, tells: bool)
        ensures { self.new ≡ begun c tells self.old }
    {
        let lag = self.lag();
        self.conn = Some(c);
        self.tells = tells;
        self.made = false;
        self.calls = 0;
        self.used = 0;
        self.given.clear();
        self.dests.clear();
        self.next = 0;
        self.at = 0;
        self.owes = lag;
        self.heard = 0;
    }

    /// Whether it still answers NotYet to the connection that it is to meet.
    pub fn keeps_waiting(&self) -> bool
        ensures { result ≡ keeps_waiting self.now }
    {
        !self.is_udp() && self.owes > 0
    }

    /// Answers a NotYet that it owes.
    fn lower(&mut self)
        requires { is_owing self.old ≡ true }
        ensures { self.new ≡ lowered self.old }
    {
        self.owes -= 1;
    }

    /// Meets a connection, or keeps it waiting. `tells` says whether the connection's bytes are told.
    pub fn ask(&mut self, c: ConnId, tells: bool)
        ensures { self.new ≡ asked c tells self.old }
    {
        if self.keeps_waiting() {
            self.lower();
        } else {
            self.begin(c, tells);
        }
    }

    /// Its address.
    pub fn addr(&self) -> Addr
        ensures { result ≡ self.now.script.addr }
    {
        self.peer.addr
    }

    /// What it answers to a connection, if it is a server.
    pub fn word(&self) -> Connects
        ensures { result ≡ self.now.script.connect }
    {
        self.peer.connect
    }

    /// The connection that it met.
    pub fn conn(&self) -> Option<ConnId>
        ensures { result ≡ self.now.conn }
    {
        self.conn
    }

    /// What it was given.
    pub fn given(&self) -> &[u8]
        ensures { result.now ≡ self.now.given }
    {
        &self.given
    }

    /// How many bytes were read of it, or 2^64 - 1 if there are more.
    pub fn heard(&self) -> u64
        ensures { result ≡ min (length (fed self.now)) (2 ^ 64 - 1) }
    {
        self.heard
    }

    /// How many of its calls failed.
    pub fn faults(&self) -> u64
        ensures { result ≡ faults_of self.now }
    {
        if self.peer.fail > 0 && self.peer.fail as u64 <= self.calls {
            1
        } else {
            0
        }
    }

    /// Whether it serves a connection. A server that refuses or never answers serves none.
    pub fn serves(&self, c: ConnId) -> bool
        ensures { result ≡ is_serving c self.now }
    {
        match self.conn {
            Some(d) => d.sn == c.sn && d.life == c.life && is_willing(&self.peer),
            None => false,
        }
    }

    /// Whether a connection may meet it.
    pub fn suits(&self, wanted: Wanted) -> bool
        ensures { result ≡ suits wanted self.now }
    {
        self.conn.is_none() && is_wanted(&self.peer, wanted)
    }

    /// The connection is made, or dropped.
    pub fn set_made(&mut self, made: bool)
        ensures { self.new ≡ record self.old { made = made } }
    {
        self.made = made;
    }

    /// Counts a call, and answers whether it fails.
    fn count_call(&mut self) -> bool
        ensures left { self.new ≡ counted self.old }
        ensures fails { result ≡ fails self.old }
    {
        self.calls = self.calls.saturating_add(1);
        self.calls == self.peer.fail as u64
    }

    /// The next entry of `takes`, which is then used.
    fn next_entry(&mut self) -> Option<u32>
        ensures entry { result ≡ entry self.old }
        ensures left { self.new ≡ record self.old { used = used_after (entry self.old) self.old.used } }
    {
        match self.peer.takes.get(self.used) {
            Some(most) => {
                let most = *most;
                self.used += 1;
                Some(most)
            }
            None => None,
        }
    }

    /// How many bytes may still be given.
    fn room_left(&self) -> usize
        ensures value { result ≡ room_left self.now }
        ensures small { result < 2 ^ 32 }
    {
        self.peer.room as usize - self.given.len()
    }

    /// Is given bytes for which there is room.
    fn give(&mut self, bytes: &[u8])
        requires { length bytes.now ≤ room_left self.old }
        ensures { self.new ≡ record self.old { given = self.old.given ++ bytes.now } }
    {
        match self.given.extend_from_slice(bytes) {
            Ok(()) => {}
            Err(_) => unreachable!(),
        }
    }

    /// Takes the first bytes of a piece.
    fn write_now(&mut self, piece: &[u8]) -> Writing
        ensures answer { writing result ≡ write_answer self.old piece.now }
        ensures fits { WriteFits result piece.now }
        ensures left { self.new ≡ write_after self.old piece.now }
    {
        let entry = self.next_entry();
        let count = allowed(entry, piece.len()).min(self.room_left());
        self.give(&piece[..count]);
        if count == 0 {
            Writing::NotYet
        } else {
            Writing::Done(count as u32)
        }
    }

    /// Takes the first bytes of a piece that is not empty.
    pub fn write(&mut self, piece: &[u8]) -> Writing
        ensures answer { writing result ≡ counted_answer (not (is_udp self.old.script.kind)) self.old (write_answer (counted self.old) piece.now) }
        ensures fits { WriteFits result piece.now }
        ensures left { self.new ≡ counted_after (not (is_udp self.old.script.kind)) self.old (write_after (counted self.old) piece.now) }
    {
        if self.is_udp() {
            return Writing::NotYet;
        }
        if self.count_call() {
            return Writing::Failed;
        }
        self.write_now(piece)
    }

    /// Whether it exchanges datagrams.
    fn is_udp(&self) -> bool
        ensures { result ≡ is_udp self.now.script.kind }
    {
        matches!(self.peer.kind, PeerKind::Udp)
    }

    /// Whether the next entry of `takes` allows a datagram.
    fn allows_now(&self) -> bool
        ensures { result ≡ allows (entry self.now) }
    {
        match self.peer.takes.get(self.used) {
            Some(most) => *most > 0,
            None => true,
        }
    }

    /// Whether it takes a datagram of so many bytes now.
    fn takes_whole(&self, count: usize) -> bool
        ensures { result ≡ takes_whole self.now count }
    {
        self.allows_now() && count <= self.room_left() && self.dests.len() < MOST_DATAGRAMS
    }

    /// Adds the address of a datagram, of which there are not too many.
    fn add_dest(&mut self, to: Addr)
        requires { length self.old.dests < MOST_DATAGRAMS }
        ensures { self.new ≡ record self.old { dests = self.old.dests ++ to ∷ [] } }
    {
        self.dests.push_reserved(to);
    }

    /// Takes a datagram, of two parts.
    fn send_now(&mut self, to: Addr, head: &[u8], tail: &[u8]) -> Sending
        ensures answer { sending result ≡ send_answer self.old (head.now ++ tail.now) }
        ensures left { self.new ≡ send_after self.old to (head.now ++ tail.now) }
    {
        let takes = self.takes_whole(head.len() + tail.len());
        let _ = self.next_entry();
        if !takes {
            return Sending::NotYet;
        }
        self.give(head);
        self.give(tail);
        self.add_dest(to);
        Sending::Done
    }

    /// Takes a datagram to an address, of two parts.
    pub fn send_to(&mut self, to: Addr, head: &[u8], tail: &[u8]) -> Sending
        ensures answer { sending result ≡ counted_answer (is_udp self.old.script.kind) self.old (send_answer (counted self.old) (head.now ++ tail.now)) }
        ensures left { self.new ≡ counted_after (is_udp self.old.script.kind) self.old (send_after (counted self.old) to (head.now ++ tail.now)) }
    {
        if !self.is_udp() {
            return Sending::NotYet;
        }
        if self.count_call() {
            return Sending::Failed;
        }
        self.send_now(to, head, tail)
    }

    /// Nothing more is sent to it.
    pub fn shut(&mut self) -> Shutting
        ensures answer { shutting result ≡ counted_answer true self.old Done }
        ensures left { self.new ≡ counted_after true self.old (counted self.old) }
    {
        if self.count_call() {
            return Shutting::Failed;
        }
        Shutting::Done
    }

    /// How many chunks are passed over before the one that is to be read next.
    fn front(&self) -> Option<usize>
        ensures { result ≡ front self.now }
    {
        first_full(&self.peer, self.next)
    }

    /// Whether that chunk can be read now.
    fn is_ready(&self, passed: usize) -> bool
        requires { front self.now ≡ Some passed }
        ensures { result ≡ is_ready self.now passed }
    {
        self.peer.say[self.next + passed].after as usize <= self.given.len()
    }

    /// Whether it has ended, once all its chunks are read.
    fn has_ended(&self) -> bool
        ensures { result ≡ has_ended self.now.script.end (length self.now.given) }
    {
        match self.peer.end {
            Some(end) => end as usize <= self.given.len(),
            None => false,
        }
    }

    /// How many bytes of that chunk are read.
    fn read_of(&self, passed: usize) -> usize
        ensures { result ≡ read_of self.now passed }
    {
        if passed == 0 { self.at } else { 0 }
    }

    /// The number of that chunk.
    fn chunk_number(&self, passed: usize) -> usize
        requires { front self.now ≡ Some passed }
        ensures value { result ≡ self.now.next + passed }
        ensures small { result < 2 ^ 63 }
        ensures there { result < length self.now.script.say }
    {
        // How many chunks there are, by which the sum is known to fit.
        let _chunks = self.peer.say.len();
        self.next + passed
    }

    /// That chunk.
    fn chunk_at(&self, passed: usize) -> &Chunk
        requires { front self.now ≡ Some passed }
        ensures value { result.now ≡ chunk_at self.now passed }
        ensures at { read_of self.now passed ≤ length (chunk_at self.now passed).bytes }
        ensures some { is_udp self.now.script.kind ≡ false → read_of self.now passed < length (chunk_at self.now passed).bytes }
    {
        &self.peer.say[self.next + passed]
    }

    /// Copies at most `most` bytes of that chunk to the start of a buffer.
    fn copy_part(&self, passed: usize, most: usize, buf: &mut [u8]) -> usize
        requires front { front self.now ≡ Some passed }
        requires room { most ≤ length buf.old }
        ensures bytes { take result buf.new ≡ part self.now passed most }
        ensures count { result ≡ length (part self.now passed most) }
        ensures few { result ≤ most }
        ensures some { is_udp self.now.script.kind ≡ false → 0 < most → 1 ≤ result }
    {
        let at = self.read_of(passed);
        let chunk = self.chunk_at(passed);
        copy_first(&chunk.bytes[at..], most, buf)
    }

    /// What it owes once so many bytes of so many are read: all again at the chunk's end.
    fn owed_after(&self, at: usize, most: usize) -> u16
        ensures { result ≡ (if at == most then self.now.script.lag else self.now.owes) }
    {
        if at == most { self.peer.lag } else { self.owes }
    }

    /// Where reading stands, once so many bytes of that chunk are read.
    fn place(&self, passed: usize, count: usize) -> Place
        requires front { front self.now ≡ Some passed }
        requires there { count ≡ length (part self.now passed count) }
        ensures next { result.next ≡ (moved self.now passed count).next }
        ensures at { result.at ≡ (moved self.now passed count).at }
        ensures owes { result.owes ≡ (moved self.now passed count).owes }
        ensures heard { result.heard ≡ min (length (fed (moved self.now passed count))) (2 ^ 64 - 1) }
    {
        let chunk = self.chunk_number(passed);
        let most = self.chunk_at(passed).bytes.len();
        let read = self.read_of(passed) + count;
        let owes = self.owed_after(read, most);
        let (next, at) = place_after(chunk, read, most);
        Place {
            next,
            at,
            owes,
            heard: self.heard.saturating_add(count as u64),
        }
    }

    /// So many bytes of that chunk are read.
    fn move_on(&mut self, passed: usize, count: usize)
        requires front { front self.old ≡ Some passed }
        requires there { count ≡ length (part self.old passed count) }
        ensures { self.new ≡ moved self.old passed count }
    {
        let place = self.place(passed, count);
        self.next = place.next;
        self.at = place.at;
        self.owes = place.owes;
        self.heard = place.heard;
    }

    /// Reads at most `most` bytes of that chunk into the start of a buffer.
    fn hear(&mut self, passed: usize, most: usize, buf: &mut [u8]) -> usize
        requires front { front self.old ≡ Some passed }
        requires room { most ≤ length buf.old }
        ensures bytes { take result buf.new ≡ part self.old passed most }
        ensures few { result ≤ most }
        ensures some { is_udp self.old.script.kind ≡ false → 0 < most → 1 ≤ result }
        ensures left { self.new ≡ moved self.old passed (length (part self.old passed most)) }
    {
        let count = self.copy_part(passed, most, buf);
        self.move_on(passed, count);
        count
    }

    /// Whether the next read begins that chunk.
    fn begins(&self, passed: usize) -> bool
        requires { front self.now ≡ Some passed }
        ensures { result ≡ is_move self.now (Some passed) }
    {
        self.is_ready(passed) && self.read_of(passed) == 0
    }

    /// Whether the next read begins a chunk, or is answered End.
    fn is_move(&self) -> bool
        ensures { result ≡ is_move self.now (front self.now) }
    {
        match self.front() {
            Some(passed) => self.begins(passed),
            None => !self.is_udp() && self.has_ended(),
        }
    }

    /// Whether it puts off what the next read would begin.
    fn puts_off(&self) -> bool
        ensures { result ≡ puts_off self.now }
    {
        self.owes > 0 && self.is_move()
    }

    /// Reads bytes into a buffer that is not empty, where it puts nothing off.
    fn read_now(&mut self, buf: &mut [u8]) -> Reading
        requires { 0 < length buf.old }
        ensures answer { reading result buf.new ≡ read_from self.old (length buf.old) (front self.old) }
        ensures fits { is_udp self.old.script.kind ≡ false → ReadFits result buf.new }
        ensures left { self.new ≡ left_by self.old (countable (length buf.old)) (front self.old) }
    {
        let Some(passed) = self.front() else {
            return if self.has_ended() {
                Reading::End
            } else {
                Reading::NotYet
            };
        };
        if !self.is_ready(passed) {
            return Reading::NotYet;
        }
        let most = buf.len().min(MOST_COUNTED);
        let count = self.hear(passed, most, buf);
        Reading::Done(count as u32)
    }

    /// Reads bytes into a buffer that is not empty, or answers a NotYet that it owes.
    fn read_or_wait(&mut self, buf: &mut [u8]) -> Reading
        requires { 0 < length buf.old }
        ensures answer { reading result buf.new ≡ read_answer self.old (length buf.old) }
        ensures fits { is_udp self.old.script.kind ≡ false → ReadFits result buf.new }
        ensures left { self.new ≡ read_after self.old (length buf.old) }
    {
        if self.puts_off() {
            self.lower();
            return Reading::NotYet;
        }
        self.read_now(buf)
    }

    /// Reads bytes into a buffer that is not empty.
    pub fn read(&mut self, buf: &mut [u8]) -> Reading
        requires { 0 < length buf.old }
        ensures answer { reading result buf.new ≡ counted_answer (not (is_udp self.old.script.kind)) self.old (read_answer (counted self.old) (length buf.old)) }
        ensures fits { ReadFits result buf.new }
        ensures left { self.new ≡ counted_after (not (is_udp self.old.script.kind)) self.old (read_after (counted self.old) (length buf.old)) }
    {
        if self.is_udp() {
            return Reading::NotYet;
        }
        if self.count_call() {
            return Reading::Failed;
        }
        self.read_or_wait(buf)
    }

    /// Reads a datagram into a buffer of at least [`MOST_BYTES`], where it puts none off.
    fn receive_now(&mut self, buf: &mut [u8]) -> Receiving
        requires { most_read ≤ length buf.old }
        ensures answer { receiving result buf.new ≡ receive_from self.old (front self.old) }
        ensures fits { ReceiveFits result }
        ensures left { self.new ≡ left_by self.old most_read (front self.old) }
    {
        let Some(passed) = self.front() else {
            return Receiving::NotYet;
        };
        if !self.is_ready(passed) {
            return Receiving::NotYet;
        }
        let count = self.hear(passed, MOST_BYTES, buf);
        Receiving::Done(count as u32, self.peer.addr)
    }

    /// Reads a datagram into a buffer of at least [`MOST_BYTES`], or answers a NotYet that it owes.
    fn receive_or_wait(&mut self, buf: &mut [u8]) -> Receiving
        requires { most_read ≤ length buf.old }
        ensures answer { receiving result buf.new ≡ receive_answer self.old }
        ensures fits { ReceiveFits result }
        ensures left { self.new ≡ read_after self.old most_read }
    {
        if self.puts_off() {
            self.lower();
            return Receiving::NotYet;
        }
        self.receive_now(buf)
    }

    /// Reads a datagram into a buffer of at least [`MOST_BYTES`].
    pub fn recv_from(&mut self, buf: &mut [u8]) -> Receiving
        requires { most_read ≤ length buf.old }
        ensures answer { receiving result buf.new ≡ counted_answer (is_udp self.old.script.kind) self.old (receive_answer (counted self.old)) }
        ensures fits { ReceiveFits result }
        ensures left { self.new ≡ counted_after (is_udp self.old.script.kind) self.old (read_after (counted self.old) most_read) }
    {
        if !self.is_udp() {
            return Receiving::NotYet;
        }
        if self.count_call() {
            return Receiving::Failed;
        }
        self.receive_or_wait(buf)
    }
}
