//! A thread's part in the turns.
ghost use Rattle.std.specs.Prelude.{◌≡◌};

use crate::kept::Kept;
use crate::over::Over;
use crate::table::View;
use atomic_table::Seat;
use link_trait::links::Links;
use std::marker::Model;

/// A thread's part in the turns. Contracts see which turns it is of, what it has seen of the history, its own entries with their
/// places, how many link calls its turns made, the cause with which it has ended, and which cause comes from it.
#[derive(Drop)]
pub struct Pass<L: Links> {
    pub(crate) seat: Seat<Option<Kept<L>>, View>,
    pub(crate) ended: Option<Over>,
}

impl<L: Links> Model for Pass<L> {
    ghost use Rattle.chip_lock.specs.Passes.{PassView, pass_view};
    ghost use Rattle.chip_lock.specs.Seats.{IsPass};

    ghost Value = { PassView };

    ghost view = { λ p. pass_view p.seat.table_id p.seat.me.0 };

    ghost invariant = { λ p. IsPass p.seat.me p.ended };
}

impl<L: Links> Pass<L> {
    /// The cause with which it has ended.
    pub fn ended(&self) -> Option<Over>
        ensures { result ≡ self.now.ended }
    {
        self.ended
    }
}
