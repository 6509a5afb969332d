//! Waits for readiness.
ghost use Rattle.std.specs.Prelude.{ℕ, IsErr};
ghost use Rattle.wz_base.specs.Outside.{RisesOnly};

use wz_base::Failed;

/// What waits, for some time, until a link may have something new. Links that never have to wait need no such thing.
pub trait Poller {
    /// How many waits failed. It never falls.
    ghost faults: { Self → ℕ };

    /// Waits until something may be new, or for a while.
    ///
    /// # Errors
    /// `Failed` exactly where the count of faults rose.
    fn wait(&mut self) -> Result<(), Failed>
        ensures faults { RisesOnly (IsErr result) (faults self.old) (faults self.new) };
}
