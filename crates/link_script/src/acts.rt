//! Calls on the peers of a list, each on the one that serves a connection.
ghost use Rattle.std.specs.Prelude.{◌≡◌, ◌<◌, ◌≤◌, ◌++◌, not, Some, None, length, set};
ghost use Rattle.std.specs.List.{find, position};
ghost use Rattle.chip_sheet.specs.LinkAnswers.{Done, NotYet};
ghost use Rattle.link_script.specs.declared.wanted.Wanted.TheVariants.{ServerAt};
ghost use Rattle.chip_sheet.specs.Windows.{most_read};
ghost use Rattle.link_trait.specs.Calls.{Call, Connect, Accept, Write, Read, SendTo, RecvFrom, Shut, DropConn, writing, linking, accepting, reading, sending, receiving, shutting, WriteFits, ReadFits, ReceiveFits};
ghost use Rattle.link_script.specs.Acting.{is_serving, asked};
ghost use Rattle.link_script.specs.Play.{suits, server_in, peers_by, answer_or, change_first, met_by, refused_by, refusal};

use crate::actor::Actor;
use crate::peer::Connects;
use crate::wanted::Wanted;
use link_trait::{
    Accepting, Addr, ConnId, Linking, Reading, Receiving, Sending, Shutting, Writing,
};

/// The place of the peer that serves a connection.
pub fn serving(actors: &[Actor], c: ConnId) -> Option<usize>
    ensures { result ≡ position (is_serving c) actors.now }
{
    actors.iter().position(|actor| actor.serves(c))
}

/// The place of the first peer that a connection may meet.
fn suiting(actors: &[Actor], wanted: Wanted) -> Option<usize>
    ensures { result ≡ position (suits wanted) actors.now }
{
    actors.iter().position(|actor| actor.suits(wanted))
}

/// Lets a connection ask the first peer that suits.
#[tactic(auto, using(crate::proofs::Changes::change_there, crate::proofs::Changes::stays_none))]
fn ask(actors: &mut [Actor], c: ConnId, wanted: Wanted, tells: bool)
    ensures { actors.new ≡ change_first (suits wanted) (asked c tells) actors.old }
{
    match suiting(actors, wanted) {
        Some(i) => actors[i].ask(c, tells),
        None => {}
    }
}

/// Lets a connection ask the first peer that suits, where none serves it.
#[tactic(auto, using(crate::proofs::Changes::met_there, crate::proofs::Changes::met_none))]
pub fn take(actors: &mut [Actor], c: ConnId, wanted: Wanted, tells: bool)
    ensures { actors.new ≡ met_by tells actors.old c wanted (server_in actors.old c) }
{
    match serving(actors, c) {
        Some(_) => {}
        None => ask(actors, c, wanted, tells),
    }
}

/// What the server that a connection asks says to it, where it does not take it; TimedOut where there is none.
#[tactic(auto, using(crate::proofs::Changes::refused_there, crate::proofs::Changes::refused_none))]
pub fn refusal(actors: &[Actor], to: Addr) -> Linking
    ensures { linking result ≡ refused_by (find (suits (ServerAt to)) actors.now) }
{
    match suiting(actors, Wanted::ServerAt(to)) {
        Some(i) => refusal_of(&actors[i]),
        None => Linking::TimedOut,
    }
}

/// What a server says to a connection that it does not take: NotYet while it owes that, then its word.
fn refusal_of(actor: &Actor) -> Linking
    ensures { linking result ≡ refused_by (Some actor.now) }
{
    if actor.keeps_waiting() {
        Linking::NotYet
    } else {
        worded(actor.word())
    }
}

/// What a server's word says to a connection that it does not take.
fn worded(word: Connects) -> Linking
    ensures { linking result ≡ refusal word }
{
    match word {
        Connects::Refused => Linking::Refused,
        _ => Linking::TimedOut,
    }
}

/// A connection to an address, with the answer where no peer serves it.
#[tactic(auto, using(crate::proofs::Changes::left_there, crate::proofs::Changes::answer_there, crate::proofs::Changes::left_none, crate::proofs::Changes::answer_none))]
pub fn connect(actors: &mut [Actor], c: ConnId, to: Addr, otherwise: Linking) -> Linking
    ensures answer { linking result ≡ answer_or (linking otherwise) (Connect c to) (server_in actors.old c) }
    ensures left { actors.new ≡ peers_by actors.old c (Connect c to) (server_in actors.old c) }
{
    match serving(actors, c) {
        Some(i) => {
            actors[i].set_made(true);
            Linking::Done
        }
        None => otherwise,
    }
}

/// A peer that connects to a port.
#[tactic(auto, using(crate::proofs::Changes::left_there, crate::proofs::Changes::answer_there, crate::proofs::Changes::left_none, crate::proofs::Changes::answer_none))]
pub fn accept(actors: &mut [Actor], c: ConnId, port: u16) -> Accepting
    ensures answer { accepting result ≡ answer_or NotYet (Accept c port) (server_in actors.old c) }
    ensures left { actors.new ≡ peers_by actors.old c (Accept c port) (server_in actors.old c) }
{
    match serving(actors, c) {
        Some(i) => {
            let from = actors[i].addr();
            actors[i].set_made(true);
            Accepting::Done(from)
        }
        None => Accepting::NotYet,
    }
}

/// A write.
#[tactic(auto, using(crate::proofs::Changes::left_there, crate::proofs::Changes::answer_there, crate::proofs::Changes::left_none, crate::proofs::Changes::answer_none))]
pub fn write(actors: &mut [Actor], c: ConnId, piece: &[u8]) -> Writing
    ensures answer { writing result ≡ answer_or NotYet (Write c piece.now) (server_in actors.old c) }
    ensures fits { WriteFits result piece.now }
    ensures left { actors.new ≡ peers_by actors.old c (Write c piece.now) (server_in actors.old c) }
{
    match serving(actors, c) {
        Some(i) => actors[i].write(piece),
        None => Writing::NotYet,
    }
}

/// A read into a buffer that is not empty.
#[tactic(auto, using(crate::proofs::Changes::left_there, crate::proofs::Changes::answer_there, crate::proofs::Changes::left_none, crate::proofs::Changes::answer_none))]
pub fn read(actors: &mut [Actor], c: ConnId, buf: &mut [u8]) -> Reading
    requires { 0 < length buf.old }
    ensures answer { reading result buf.new ≡ answer_or NotYet (Read c (length buf.old)) (server_in actors.old c) }
    ensures fits { ReadFits result buf.new }
    ensures left { actors.new ≡ peers_by actors.old c (Read c (length buf.old)) (server_in actors.old c) }
{
    match serving(actors, c) {
        Some(i) => actors[i].read(buf),
        None => Reading::NotYet,
    }
}

/// A datagram of two parts to an address.
#[tactic(auto, using(crate::proofs::Changes::left_there, crate::proofs::Changes::answer_there, crate::proofs::Changes::left_none, crate::proofs::Changes::answer_none))]
pub fn send_to(
    actors: &mut [Actor],
    c: ConnId,
    port: u16,
    to: Addr,
    head: &[u8],
    tail: &[u8],
) -> Sending
    ensures answer { sending result ≡ answer_or Done (SendTo c port to (head.now ++ tail.now)) (server_in actors.old c) }
    ensures left { actors.new ≡ peers_by actors.old c (SendTo c port to (head.now ++ tail.now)) (server_in actors.old c) }
{
    match serving(actors, c) {
        Some(i) => actors[i].send_to(to, head, tail),
        None => Sending::Done,
    }
}

/// A datagram that came, into a buffer of at least 1472 bytes.
#[tactic(auto, using(crate::proofs::Changes::left_there, crate::proofs::Changes::answer_there, crate::proofs::Changes::left_none, crate::proofs::Changes::answer_none))]
pub fn recv_from(actors: &mut [Actor], c: ConnId, port: u16, buf: &mut [u8]) -> Receiving
    requires { most_read ≤ length buf.old }
    ensures answer { receiving result buf.new ≡ answer_or NotYet (RecvFrom c port (length buf.old)) (server_in actors.old c) }
    ensures fits { ReceiveFits result }
    ensures left { actors.new ≡ peers_by actors.old c (RecvFrom c port (length buf.old)) (server_in actors.old c) }
{
    match serving(actors, c) {
        Some(i) => actors[i].recv_from(buf),
        None => Receiving::NotYet,
    }
}

/// The end of what is sent.
#[tactic(auto, using(crate::proofs::Changes::left_there, crate::proofs::Changes::answer_there, crate::proofs::Changes::left_none, crate::proofs::Changes::answer_none))]
pub fn shut(actors: &mut [Actor], c: ConnId) -> Shutting
    ensures answer { shutting result ≡ answer_or Done (Shut c) (server_in actors.old c) }
    ensures left { actors.new ≡ peers_by actors.old c (Shut c) (server_in actors.old c) }
{
    match serving(actors, c) {
        Some(i) => actors[i].shut(),
        None => Shutting::Done,
    }
}

/// A connection that is forgotten.
#[tactic(auto, using(crate::proofs::Changes::left_there, crate::proofs::Changes::answer_there, crate::proofs::Changes::left_none, crate::proofs::Changes::answer_none))]
pub fn drop_conn(actors: &mut [Actor], c: ConnId)
    ensures answer { Done ≡ answer_or Done (DropConn c) (server_in actors.old c) }
    ensures left { actors.new ≡ peers_by actors.old c (DropConn c) (server_in actors.old c) }
{
    match serving(actors, c) {
        Some(i) => actors[i].set_made(false),
        None => {}
    }
}
