//! Which link call is due at a place of the chip, and which link events fit.
ghost use Rattle.std.specs.Prelude.{◌≡◌, ◌<◌, slice_index_or};
ghost use Rattle.chip_sheet.specs.Past.{Past, link_entry};
ghost use Rattle.chip_sheet.specs.Streams.{Starts};
ghost use Rattle.chip_sheet.specs.LinkCalls.{due_at, one_to, answers_call};
ghost use Rattle.sock_cmd.specs.declared.life.Life.{Life};
ghost use Rattle.chip_parts.specs.Holding.{Holds};
ghost use Rattle.chip_links.specs.Fitting.{fits_here};

use chip_parts::parts::Parts;
use chip_sheet::event::LinkWhat;
use chip_sheet::socket::Due;
use sock_cmd::life::Life;

/// A link call carries at most so many bytes in.
const MOST_READ: usize = 1472;

/// Whether a number lies from 1 to this.
fn one_to(most: usize, count: usize) -> bool
    ensures { result ≡ one_to most count }
{
    1 <= count && count <= most
}

/// Whether a link event is an answer to a call, where so many bytes are in flight and so many are free of the RX buffer.
fn answers(call: Due, flight: u32, free: u32, e: &LinkWhat<'_>) -> bool
    ensures { result ≡ answers_call call flight free (link_entry e.now) }
{
    match (call, e) {
        (Due::Drop(_), LinkWhat::Dropped) => true,
        (
            Due::Connect(_, _),
            LinkWhat::Linked | LinkWhat::Refused | LinkWhat::TimedOut | LinkWhat::Failed,
        ) => true,
        (Due::Write(_), LinkWhat::Took(count)) => one_to(flight as usize, *count as usize),
        (Due::SendTo(_, _, _), LinkWhat::Took(count)) => *count == flight,
        (Due::Write(_) | Due::SendTo(_, _, _), LinkWhat::Failed) => true,
        (Due::Shut(_), LinkWhat::Shut | LinkWhat::Failed) => true,
        (Due::Accept(_, _), LinkWhat::Accepted(_) | LinkWhat::Failed) => true,
        (Due::Read(_), LinkWhat::Got(bytes)) => one_to((free as usize).min(MOST_READ), bytes.len()),
        (Due::ReadAway(_), LinkWhat::Got(bytes)) => one_to(MOST_READ, bytes.len()),
        (Due::Read(_) | Due::ReadAway(_), LinkWhat::Ended | LinkWhat::Failed) => true,
        (Due::RecvFrom(_, _), LinkWhat::Datagram(_, body)) => body.len() <= MOST_READ,
        (Due::RecvFrom(_, _), LinkWhat::Failed) => true,
        _ => false,
    }
}

/// The link call that is due at a place, 0 to 15: place 2n is the outgoing one of socket n, and 2n + 1 the incoming one.
pub fn due(parts: &Parts, place: u8) -> Due
    requires { place < 16 }
    ensures { (starts : Starts) (past : Past) → Holds starts parts.now past → result ≡ due_at starts past place }
{
    let sn = place / 2;
    let flight = parts.rings.flight(sn);
    let free = parts.rings.free(sn);
    parts.lives[sn as usize].due(place, flight, free)
}

/// The life of socket `sn`, 0 to 7, of these.
pub(crate) fn life_at(lives: &[Life; 8], sn: u8) -> &Life
    requires { sn < 8 }
    ensures { (other : Life) → result.now ≡ slice_index_or lives.now sn other }
{
    &lives[sn as usize]
}

/// Whether a link event of socket `sn`, 0 to 7, fits: it is an answer to the call that is due at one of the socket's two places.
pub fn fits(parts: &Parts, sn: u8, e: &LinkWhat<'_>) -> bool
    requires { sn < 8 }
    ensures { result ≡ fits_here parts.now sn (link_entry e.now) }
{
    let life = life_at(&parts.lives, sn);
    let flight = parts.rings.flight(sn);
    let free = parts.rings.free(sn);
    answers(life.due(2 * sn, flight, free), flight, free, e)
        || answers(life.due(2 * sn + 1, flight, free), flight, free, e)
}
