//! What the answer of a link call comes to: an event of the link, or none where nothing happened yet.
ghost use Rattle.std.specs.Prelude.{◌≡◌, ◌≤◌, ℕ, length};
ghost use Rattle.chip_sheet.specs.declared.event.Addr.{Addr};
ghost use Rattle.chip_sheet.specs.declared.event.ConnId.{ConnId};
ghost use Rattle.chip_sheet.specs.declared.socket.Due.TheVariants as due;
ghost use Rattle.chip_sheet.specs.LinkAnswers.{entry_by, Done};
ghost use Rattle.chip_sheet.specs.Windows.{most_read};
ghost use Rattle.link_trait.specs.Calls.{linking, accepting, writing, reading, sending, receiving, shutting, ReadFits, ReceiveFits};
ghost use Rattle.chip_shared.specs.Calling.{did_at};
ghost use Rattle.chip_shared.specs.Entries.{entry_for, did_for};

use crate::shared::LinkDid;
use chip_sheet::event::LinkWhat;
use link_trait::links::{Accepting, Linking, Reading, Receiving, Sending, Shutting, Writing};

/// What a step at a place says of what the link did.
pub(crate) fn did(place: u8, what: &Option<LinkWhat<'_>>) -> LinkDid
    ensures { result ≡ did_for place what.now }
{
    match what {
        None => LinkDid::NotYet(place),
        Some(LinkWhat::Failed) => LinkDid::Fault(place),
        Some(_) => LinkDid::Did(place),
    }
}

/// Of `connect`.
pub(crate) fn linked<'a>(answer: Linking) -> Option<LinkWhat<'a>>
    ensures entry { (n flight : ℕ) (c : ConnId) (to : Addr) → entry_for n result ≡ entry_by n flight (due.Connect c to) (linking answer) }
    ensures did { (place : ℕ) → did_for place result ≡ did_at place (linking answer) }
{
    match answer {
        Linking::Done => Some(LinkWhat::Linked),
        Linking::NotYet => None,
        Linking::Refused => Some(LinkWhat::Refused),
        Linking::TimedOut => Some(LinkWhat::TimedOut),
        Linking::Failed => Some(LinkWhat::Failed),
    }
}

/// Of `accept`.
pub(crate) fn accepted<'a>(answer: Accepting) -> Option<LinkWhat<'a>>
    ensures entry { (n flight : ℕ) (c : ConnId) (port : ℕ) → entry_for n result ≡ entry_by n flight (due.Accept c port) (accepting answer) }
    ensures did { (place : ℕ) → did_for place result ≡ did_at place (accepting answer) }
{
    match answer {
        Accepting::Done(from) => Some(LinkWhat::Accepted(from)),
        Accepting::NotYet => None,
        Accepting::Failed => Some(LinkWhat::Failed),
    }
}

/// Of `write`.
pub(crate) fn written<'a>(answer: Writing) -> Option<LinkWhat<'a>>
    ensures entry { (n flight : ℕ) (c : ConnId) → entry_for n result ≡ entry_by n flight (due.Write c) (writing answer) }
    ensures did { (place : ℕ) → did_for place result ≡ did_at place (writing answer) }
{
    match answer {
        Writing::Done(count) => Some(LinkWhat::Took(count)),
        Writing::NotYet => None,
        Writing::Failed => Some(LinkWhat::Failed),
    }
}

/// Of `read`, with the buffer that was read into: the bytes are kept, or thrown away.
pub(crate) fn had_read<'a>(answer: Reading, bytes: &'a [u8]) -> Option<LinkWhat<'a>>
    requires { ReadFits answer bytes.now }
    ensures entry { (n flight : ℕ) (c : ConnId) → entry_for n result ≡ entry_by n flight (due.Read c) (reading answer bytes.now) }
    ensures away { (n flight : ℕ) (c : ConnId) → entry_for n result ≡ entry_by n flight (due.ReadAway c) (reading answer bytes.now) }
    ensures did { (place : ℕ) → did_for place result ≡ did_at place (reading answer bytes.now) }
{
    match answer {
        Reading::Done(count) => Some(LinkWhat::Got(&bytes[..count as usize])),
        Reading::NotYet => None,
        Reading::End => Some(LinkWhat::Ended),
        Reading::Failed => Some(LinkWhat::Failed),
    }
}

/// Of `recv_from`, with the buffer that the datagram was put into.
pub(crate) fn received<'a>(answer: Receiving, bytes: &'a [u8]) -> Option<LinkWhat<'a>>
    requires fits { ReceiveFits answer }
    requires room { most_read ≤ length bytes.now }
    ensures entry { (n flight port : ℕ) (c : ConnId) → entry_for n result ≡ entry_by n flight (due.RecvFrom c port) (receiving answer bytes.now) }
    ensures did { (place : ℕ) → did_for place result ≡ did_at place (receiving answer bytes.now) }
{
    match answer {
        Receiving::Done(count, from) => Some(LinkWhat::Datagram(from, &bytes[..count as usize])),
        Receiving::NotYet => None,
        Receiving::Failed => Some(LinkWhat::Failed),
    }
}

/// Of `send_to`, where so many bytes were in flight.
pub(crate) fn sent<'a>(answer: Sending, flight: u32) -> Option<LinkWhat<'a>>
    ensures entry { (n port : ℕ) (c : ConnId) (to : Addr) → entry_for n result ≡ entry_by n flight (due.SendTo c port to) (sending answer) }
    ensures did { (place : ℕ) → did_for place result ≡ did_at place (sending answer) }
{
    match answer {
        Sending::Done => Some(LinkWhat::Took(flight)),
        Sending::NotYet => None,
        Sending::Failed => Some(LinkWhat::Failed),
    }
}

/// Of `shut`.
pub(crate) fn shut<'a>(answer: Shutting) -> Option<LinkWhat<'a>>
    ensures entry { (n flight : ℕ) (c : ConnId) → entry_for n result ≡ entry_by n flight (due.Shut c) (shutting answer) }
    ensures did { (place : ℕ) → did_for place result ≡ did_at place (shutting answer) }
{
    match answer {
        Shutting::Done => Some(LinkWhat::Shut),
        Shutting::Failed => Some(LinkWhat::Failed),
    }
}

/// Of `drop_conn`, which has one answer.
pub(crate) fn dropped<'a>() -> Option<LinkWhat<'a>>
    ensures entry { (n flight : ℕ) (c : ConnId) → entry_for n result ≡ entry_by n flight (due.Drop c) Done }
    ensures did { (place : ℕ) → did_for place result ≡ did_at place Done }
{
    Some(LinkWhat::Dropped)
}
