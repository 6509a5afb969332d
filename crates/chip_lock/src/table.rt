//! The table that turns are taken at: two words and one slot, what a seat knows of it, and the names of its steps.
use crate::kept::Kept;
use crate::over::{Found, Over};
use atomic_table::{Join, Play, Split, TableRule};
use chip_shared::shared::Shared;
use chip_sheet::event::Entry;
use link_trait::links::Links;
use std::collections::LinkedList;
use std::marker::PhantomData;
use std::snapshot::Snapshot;

/// The word with the next ticket.
pub(crate) const TICKET: usize = 0;

/// The word with the ticket that is served: as many turns were taken.
pub(crate) const SERVING: usize = 1;

/// Where a seat is: between turns, waiting with a ticket, or in the turn of its ticket.
pub enum Stage {
    Idle,
    Waiting(u64),
    Inside(u64),
}

/// What is the same at every turn: where the positions of connections begin, and the weight that the history is meant to hold.
pub struct Terms {
    pub tx_start: u64,
    pub rx_start: u64,
    pub limit: u64,
}

/// What a seat knows. No value of it is made. Lists have the newest first.
pub struct View {
    pub stage: Stage,
    pub terms: Terms,
    /// What had happened when it saw the history last.
    pub seen: LinkedList<Entry>,
    /// Its own entries, with their places in the history.
    pub mine: LinkedList<(u64, Entry)>,
    /// The entries of the seat that was joined, and what that one had seen.
    pub theirs: LinkedList<(u64, Entry)>,
    pub told: LinkedList<Entry>,
    /// 2 of the only seat, 1 of one of two, and 0 of one that was joined into the other.
    pub parts: u64,
    pub is_joined: bool,
    /// How many of its parts have not ended.
    pub runs: u64,
    /// How many link calls its turns made.
    pub asked: u64,
    /// The cause with which it has ended, and that of the seat that was joined.
    pub ended: Option<Over>,
    pub their_end: Option<Over>,
    /// The stop that it found, and the cause that it gave. Then those of the seat that was joined.
    pub found: Option<Found>,
    pub gave: Option<Over>,
    pub their_found: Option<Found>,
    pub their_gave: Option<Over>,
    /// What it found when its turn came: how many passes had not ended, how many link calls were made, and the cause that was
    /// kept.
    pub live: u64,
    pub calls: u64,
    pub cause: Option<Over>,
}

/// The rule that each step keeps.
pub struct Order<L> {
    links: PhantomData<L>,
}

impl<L: Links> TableRule<Option<Kept<L>>, View, Snapshot<Shared<L>>> for Order<L> {
    ghost use Rattle.chip_lock.specs.Rule.{Orderly};
    ghost use Rattle.chip_lock.specs.Views.{newcomer, terms_of};

    ghost holds = { λ _. Orderly };

    ghost first = { λ about. newcomer (terms_of about.value) };
}

/// A ticket is drawn.
pub(crate) struct Draw;

impl<L: Links> Play<Option<Kept<L>>, View> for Draw {
    ghost use Rattle.chip_lock.specs.Plays.{drawn};

    ghost then = { drawn };
}

/// A look at the ticket that is served.
pub(crate) struct Look;

impl<L: Links> Play<Option<Kept<L>>, View> for Look {
    ghost use Rattle.chip_lock.specs.Plays.{looked};

    ghost then = { looked };
}

/// The next ticket is served.
pub(crate) struct Leave;

impl<L: Links> Play<Option<Kept<L>>, View> for Leave {
    ghost use Rattle.chip_lock.specs.Plays.{left};

    ghost then = { left };
}

/// Two seats, each with one part.
pub(crate) struct Halves;

impl Split<View> for Halves {
    ghost use Rattle.chip_lock.specs.Views.{first_half, second_half};

    ghost left = { first_half };

    ghost right = { second_half };
}

impl Join<View> for Halves {
    ghost use Rattle.chip_lock.specs.Views.{joined, spent};

    ghost both = { joined };

    ghost spent = { spent };
}
