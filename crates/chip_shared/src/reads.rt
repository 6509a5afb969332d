//! The link step that reads into what the chip lends of its buffer.
ghost use Rattle.std.specs.Prelude.{◌≡◌, ◌≤◌, ◌<◌, ◌+◌, ◌∷◌, ℕ, true, None, length};
ghost use Rattle.chip_sheet.specs.declared.event.ConnId.{ConnId};
ghost use Rattle.chip_sheet.specs.declared.event.LinkEntry.{LinkEntry};
ghost use Rattle.chip_sheet.specs.declared.event.Entry.TheVariants.{Link};
ghost use Rattle.chip_sheet.specs.declared.socket.Due.TheVariants as due;
ghost use Rattle.chip_sheet.specs.Past.{Past};
ghost use Rattle.chip_sheet.specs.Streams.{Starts};
ghost use Rattle.chip_sheet.specs.LinkAnswers.{entry_by};
ghost use Rattle.chip_core.specs.Chip.{Stands, Few, stop_kept, fits_here, room_len, room_bytes};
ghost use Rattle.link_trait.specs.Calls.{reading, ReadFits};
ghost use Rattle.chip_shared.specs.Entries.{entry_for};
ghost use Rattle.chip_shared.specs.Adding.{RoomFor};

use crate::answers;
use crate::shared::{LinkDid, Shared};
use chip_core::{Chip, laws};
use chip_hist::History;
use chip_sheet::event::{ConnId, Event, LinkWhat};
use link_trait::links::{Links, Reading};

/// Puts what the link of a socket did into the history; where it did nothing, a turn in which nothing happened.
fn note(history: &mut History, sn: u8, what: Option<LinkWhat<'_>>)
    requires { RoomFor history.old (entry_for sn what) }
    ensures past { history.new.past ≡ entry_for sn what.entry ∷ history.old.past }
    ensures events { history.old.spare_events ≤ history.new.spare_events + 1 }
    ensures limit { history.new.limit ≡ history.old.limit }
{
    match what {
        None => history.push(Event::Rest),
        Some(w) => history.push(Event::Link(sn, w)),
    }
}

/// Takes what a read brought into the chip, into whose room it read.
fn keep(chip: &mut Chip, sn: u8, answer: Reading)
    requires sn { sn < 8 }
    requires few { Few chip.old }
    requires unstopped { stop_kept chip.old ≡ None }
    requires within { ReadFits answer (room_bytes chip.old sn) }
    requires len { length (room_bytes chip.old sn) ≡ room_len chip.old sn }
    requires fits { (c : ConnId) (what : LinkEntry) → entry_by sn 0 (due.Read c) (reading answer (room_bytes chip.old sn)) ≡ Link sn what → fits_here chip.old sn what ≡ true }
    ensures stands { (starts : Starts) (past : Past) (flight : ℕ) (c : ConnId) → Stands starts chip.old past
        → Stands starts chip.new (entry_by sn flight (due.Read c) (reading answer (room_bytes chip.old sn)) ∷ past) }
    ensures unstopped { stop_kept chip.new ≡ None }
{
    laws::rest_stands();
    match answer {
        Reading::Done(count) => chip.filled(sn, count),
        Reading::NotYet => {}
        Reading::End => chip.link(sn, &LinkWhat::Ended),
        Reading::Failed => chip.link(sn, &LinkWhat::Failed),
    }
}

impl<L: Links> Shared<L> {
    ghost use Rattle.chip_shared.specs.Calling.{Called};
    ghost use Rattle.chip_shared.specs.Causes.{Does};
    ghost use Rattle.chip_shared.specs.Making.{Begins};

    /// Reads bytes of a stream into what is free of the RX buffer, up to its end.
    pub(crate) fn read_step(&mut self, place: u8, c: ConnId) -> LinkDid
        requires begins { Begins self.old place (due.Read c) }
        ensures called { Called (Does L.effect L.shown) self.old place result self.new }
    {
        laws::short_is_few();
        laws::starts_are();
        laws::fits_agrees();
        laws::room_is_lent();
        let room = self.chip.room(place / 2);
        let answer = self.links.read(c, room);
        let what = answers::had_read(answer, room);
        let did = answers::did(place, &what);
        note(&mut self.history, place / 2, what);
        keep(&mut self.chip, place / 2, answer);
        self.calls += 1;
        did
    }
}
