//! A poller in memory.
ghost use Rattle.std.specs.Prelude.{◌↔◌, IsErr};

use crate::waiting::Poller;
use wz_base::Failed;
use wz_base::calls::Calls;

/// A poller that never waits. Each wait is a call, and those of the given numbers fail.
#[derive(Debug, Drop)]
pub struct ListPoller {
    /// The waits so far.
    calls: Calls,
}

impl ListPoller {
    ghost use Rattle.wz_base.specs.Calls.{IsFresh};
    ghost use Rattle.live_trait.specs.Listed.{waits_of};

    /// A poller of which no wait was asked. Those with a number in `failing`, from 1, will fail.
    pub fn new(failing: Vec<u64>) -> ListPoller
        ensures { IsFresh (waits_of result) failing.items }
    {
        ListPoller {
            calls: Calls::new(failing),
        }
    }
}

impl Poller for ListPoller {
    ghost use Rattle.std.specs.Prelude.{◌↔◌, IsErr};
    ghost use Rattle.wz_base.specs.Calls.{IsListed, OneMore};
    ghost use Rattle.wz_base.specs.Outside.{RisesOnly};
    ghost use Rattle.live_trait.specs.Listed.{waits_of};

    ghost faults = { λ p. p.calls.faults };

    /// Returns at once. It fails exactly where its number is listed.
    fn wait(&mut self) -> Result<(), Failed>
        ensures faults { RisesOnly (IsErr result) (waits_of self.old).faults (waits_of self.new).faults }
        ensures fails { IsErr result ↔ IsListed (waits_of self.old) }
        ensures calls { OneMore (waits_of self.old) (waits_of self.new) }
    {
        if self.calls.next_fails(false) {
            Err(Failed)
        } else {
            Ok(())
        }
    }
}
