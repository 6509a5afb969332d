//! The table of socket life, and what is asked of a status and of what happens (W5500 datasheet, 4.2 Sn_CR and Sn_SR, figure 4
//! state diagram; the rules on links are this profile's own).

ghost use Rattle.std.specs.Prelude.{◌≡◌};
ghost use Rattle.chip_sheet.specs.Life as sheet;
ghost use Rattle.chip_sheet.specs.LinkCalls as calls;
ghost use Rattle.chip_sheet.specs.Past.{link_entry};
ghost use Rattle.chip_sheet.specs.Streams as streams;

use chip_sheet::event::LinkWhat;
use chip_sheet::socket::{Cause, Status};

/// The next status, where the table has a line that fits; the first that fits counts. `both` says that the other of Ended and
/// Shut came before in this life.
fn row(status: Status, why: Cause, both: bool) -> Option<Status>
    ensures { result ≡ sheet.row status why (record { both = both }) }
{
    let last = if both {
        Status::Closed
    } else {
        Status::FinWait
    };
    match (status, why) {
        // a reset of the chip closes every socket
        (_, Cause::Reset) => Some(Status::Closed),
        // OPEN with the protocol TCP or UDP begins a new life
        (Status::Closed, Cause::OpenTcp) => Some(Status::Init),
        (Status::Closed, Cause::OpenUdp) => Some(Status::Udp),
        (Status::Init, Cause::Listen) => Some(Status::Listen),
        (Status::Init, Cause::Connect) => Some(Status::SynSent),
        (Status::Listen, Cause::Accepted) => Some(Status::Established),
        (Status::SynSent, Cause::Linked) => Some(Status::Established),
        (Status::SynSent, Cause::Refused) => Some(Status::Closed),
        (Status::SynSent, Cause::TimedOut) => Some(Status::Closed),
        (Status::Established, Cause::Ended) => Some(Status::CloseWait),
        (Status::Established, Cause::Disconnect) => Some(Status::FinWait),
        (Status::CloseWait, Cause::Disconnect) => Some(Status::LastAck),
        (Status::FinWait, Cause::Ended) => Some(last),
        (Status::FinWait, Cause::Shut) => Some(last),
        (Status::LastAck, Cause::Shut) => Some(Status::Closed),
        // in all but CLOSED
        (Status::Closed, _) => None,
        (_, Cause::Close) => Some(Status::Closed),
        // in all but CLOSED and INIT
        (Status::Init, _) => None,
        (_, Cause::Failed) => Some(Status::Closed),
        _ => None,
    }
}

/// The status after something happened: the same where the table has no line that fits.
pub(crate) fn next(status: Status, why: Cause, both: bool) -> Status
    ensures { result ≡ sheet.next status why (record { both = both }) }
{
    row(status, why, both).unwrap_or(status)
}

/// What a link event is for its own socket.
pub(crate) fn happening(what: &LinkWhat<'_>) -> Cause
    ensures { result ≡ sheet.happening (link_entry what.now) }
{
    match what {
        LinkWhat::Linked => Cause::Linked,
        LinkWhat::Accepted(_) => Cause::Accepted,
        LinkWhat::Refused => Cause::Refused,
        LinkWhat::TimedOut => Cause::TimedOut,
        LinkWhat::Took(count) => Cause::Took(*count),
        LinkWhat::Got(_) => Cause::Got,
        LinkWhat::Datagram(_, body) => Cause::Datagram(body.len() as u64),
        LinkWhat::Ended => Cause::Ended,
        LinkWhat::Shut => Cause::Shut,
        LinkWhat::Failed => Cause::Failed,
        LinkWhat::Dropped => Cause::Dropped,
    }
}

/// Whether a new life begins: OPEN is accepted.
pub(crate) fn begins(why: Cause, status: Status) -> bool
    ensures { result ≡ sheet.begins why status }
{
    matches!(
        (why, status),
        (Cause::OpenTcp | Cause::OpenUdp, Status::Closed)
    )
}

/// Whether the address in the registers is kept: CONNECT in INIT, and SEND in UDP, where the datagram goes there.
pub(crate) fn keeps_address(why: Cause, status: Status) -> bool
    ensures { result ≡ calls.keeps_address why status }
{
    matches!(
        (why, status),
        (Cause::Connect, Status::Init) | (Cause::Send, Status::Udp)
    )
}

/// Whether the port in the registers is kept: LISTEN in INIT, and OPEN in CLOSED for UDP.
pub(crate) fn keeps_port(why: Cause, status: Status) -> bool
    ensures { result ≡ calls.keeps_port why status }
{
    matches!(
        (why, status),
        (Cause::Listen, Status::Init) | (Cause::OpenUdp, Status::Closed)
    )
}

/// Whether the status is CLOSED.
#[inline]
pub(crate) fn is_closed(status: Status) -> bool
    ensures { result ≡ sheet.is_closed status }
{
    matches!(status, Status::Closed)
}

/// Whether the status is UDP.
#[inline]
pub(crate) fn is_udp(status: Status) -> bool
    ensures { result ≡ sheet.is_udp status }
{
    matches!(status, Status::Udp)
}

/// Whether bytes from the link are put into the RX buffer as a stream: in ESTABLISHED alone.
#[inline]
pub(crate) fn is_established(status: Status) -> bool
    ensures { result ≡ streams.is_established status }
{
    matches!(status, Status::Established)
}

/// Whether RECV releases bytes, and the windows may hold any: in ESTABLISHED and the statuses that follow it, and in UDP.
#[inline]
pub(crate) fn is_open(status: Status) -> bool
    ensures { result ≡ streams.is_open status }
{
    !matches!(
        status,
        Status::Closed | Status::Init | Status::Listen | Status::SynSent
    )
}

/// Whether SEND takes bytes: in ESTABLISHED, CLOSE_WAIT and UDP.
#[inline]
pub(crate) fn sends(status: Status) -> bool
    ensures { result ≡ streams.sends status }
{
    matches!(
        status,
        Status::Established | Status::CloseWait | Status::Udp
    )
}

/// Whether the link is asked for a connection or for datagrams.
pub(crate) fn asks_link(status: Status) -> bool
    ensures { result ≡ sheet.asks_link status }
{
    matches!(status, Status::Listen | Status::SynSent | Status::Udp)
}

/// What Sn_SR reads for a status (datasheet, 4.2 Sn_SR).
#[inline]
pub(crate) fn status_code(status: Status) -> u8
    ensures { result ≡ sheet.status_code status }
{
    match status {
        Status::Closed => 0x00,
        Status::Init => 0x13,
        Status::Listen => 0x14,
        Status::SynSent => 0x15,
        Status::Established => 0x17,
        Status::FinWait => 0x18,
        Status::CloseWait => 0x1C,
        Status::LastAck => 0x1D,
        Status::Udp => 0x22,
    }
}
