//! A sweep over all places, and where one goes on after each step.
ghost use Rattle.std.specs.Prelude.{◌≡◌, Some};
ghost use Rattle.chip_shared.specs.Sweeping.{behind, goes_on_from};

use crate::shared::{LinkDid, Shared, StepEnd};
use link_trait::links::Links;

/// The place after a place, 0 to 15, if there is one; none after the last.
pub fn behind_place(place: u8) -> Option<u8>
    ensures { result ≡ behind place }
{
    if place < 15 { Some(place + 1) } else { None }
}

/// From where a sweep goes on after a step: the place after the one that was met, 1 to 15. `None` after the last place, or where
/// nothing was due: the sweep is over.
pub fn after_step(did: LinkDid) -> Option<u8>
    ensures { result ≡ goes_on_from did }
{
    match did {
        LinkDid::Did(place) | LinkDid::NotYet(place) | LinkDid::Fault(place) => behind_place(place),
        LinkDid::Idle => None,
    }
}

impl<L: Links> Shared<L> {
    ghost use Rattle.chip_shared.specs.Sweeping.{Sweeps};
    ghost use Rattle.chip_shared.specs.Causes.{Does, Later};

    /// Makes the link calls that are due at the places 0 to 15, in this order: each place is met at most once. Where nothing more
    /// is due, a turn in which nothing happened is added.
    ///
    /// # Errors
    ///
    /// As of the link step that was refused. The steps before it stand.
    pub fn sweep(&mut self) -> Result<(), StepEnd>
        ensures steps { Sweeps (Does L.effect L.shown) 16 self.old (Some 0) result self.new }
        ensures counts { Later (L.shown self.old.links) (L.shown self.new.links) }
    {
        let mut next = Some(0);
        while let Some(from) = next {
            match self.link_step(from) {
                Ok(did) => next = after_step(did),
                Err(end) => return Err(end),
            }
        }
        Ok(())
    }
}
