//! What a command leaves that may be a live run.
ghost use Rattle.std.specs.Prelude.{◌≡◌};
ghost use Rattle.board_quick.specs.Ends.{status_of};

use board_quick::end::EndKind;
use chip_hist::history::History;
use link_script::ScriptLinks;

/// What a command leaves that may be a live run.
#[derive(Drop)]
pub struct TopEnd<L, P> {
    /// The exit status of the program, 0 to 20.
    pub status: u8,
    /// What happened on the chip's bus and its links, empty where the command made no event.
    pub history: History,
    /// The links, as they were where no live run began.
    pub links: L,
    /// The poller, as it was where no live run began.
    pub poller: P,
    /// The scripted peers of a `sim`, a `trace` or a `gen`, where they were made.
    pub script: Option<ScriptLinks>,
    /// How the command ended.
    pub end: EndKind,
    ghost status_of_end: { status ≡ status_of end },
}
