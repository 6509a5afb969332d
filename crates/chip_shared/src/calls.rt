//! What a call of a link step brought, taken into chip and history; and the steps but those that read into the chip's buffer.
ghost use Rattle.std.specs.Prelude.{◌≡◌, ◌≤◌, ◌+◌, ◌∷◌, true, None};
ghost use Rattle.chip_sheet.specs.Past.{Past};
ghost use Rattle.chip_sheet.specs.Streams.{Starts};
ghost use Rattle.chip_core.specs.Chip.{Stands, stop_kept};
ghost use Rattle.chip_shared.specs.Entries.{entry_for};
ghost use Rattle.chip_shared.specs.Adding.{IsReady};

use crate::answers;
use crate::making::make;
use crate::shared::{LinkDid, Shared};
use chip_core::{Chip, laws};
use chip_hist::History;
use chip_sheet::event::{Event, LinkWhat};
use chip_sheet::socket::Due;
use link_trait::links::Links;

/// Takes what the link of a socket did into chip and history; where it did nothing, a turn in which nothing happened into the
/// history.
fn settle(chip: &mut Chip, history: &mut History, sn: u8, what: Option<LinkWhat<'_>>)
    requires { IsReady chip.old history.old sn what }
    ensures stands { (starts : Starts) (past : Past) → Stands starts chip.old past → Stands starts chip.new (entry_for sn what.entry ∷ past) }
    ensures unstopped { stop_kept chip.new ≡ None }
    ensures past { history.new.past ≡ entry_for sn what.entry ∷ history.old.past }
    ensures events { history.old.spare_events ≤ history.new.spare_events + 1 }
    ensures limit { history.new.limit ≡ history.old.limit }
{
    laws::rest_stands();
    match what {
        None => history.push(Event::Rest),
        Some(w) => {
            chip.link(sn, &w);
            history.push(Event::Link(sn, w));
        }
    }
}

impl<L: Links> Shared<L> {
    ghost use Rattle.chip_shared.specs.Calling.{Called};
    ghost use Rattle.chip_shared.specs.Causes.{Does};
    ghost use Rattle.chip_shared.specs.Making.{Begins, is_elsewhere};

    /// Makes a call that is due, but for a read into the chip's buffer.
    pub(crate) fn make_step(&mut self, place: u8, call: &Due) -> LinkDid
        requires begins { Begins self.old place call.now }
        requires elsewhere { is_elsewhere call.now ≡ true }
        ensures called { Called (Does L.effect L.shown) self.old place result self.new }
    {
        laws::short_is_few();
        laws::starts_are();
        laws::fits_agrees();
        let (head, tail) = self.chip.offer(place / 2);
        let what = make(&mut self.links, call, head, tail, &mut self.scratch);
        settle(&mut self.chip, &mut self.history, place / 2, what);
        self.calls += 1;
        answers::did(place, &what)
    }
}
