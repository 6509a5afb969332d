//! The entries of a trace.
ghost use Rattle.std.specs.Prelude.{◌≡◌};

use board_gen::LinkStep;
use board_gen::token::LinkToken;
use chip_sheet::event::{BusAnswer, BusEvent, Event};

/// What a line of a trace says happened. It owns its bytes.
#[derive(Debug, Drop)]
pub enum TraceEntry {
    /// `L`, `H`, `XX>YY`, `?1` or `?0`: an event of the bus with its answer.
    Bus(BusEvent, BusAnswer),
    /// `@n:..`: what the link below a socket did.
    Link(LinkStep),
    /// `.`: a turn in which nothing happened.
    Rest,
}

impl TraceEntry {
    ghost use Rattle.chip_sheet.specs.Past.{entry_of};
    ghost use Rattle.board_judge.specs.Run.{IsOfChip};
    ghost use Rattle.board_judge.specs.Views.{entry_said};

    /// The event, with its bytes lent.
    pub fn event(&self) -> Event<'_>
        ensures is { entry_of result ≡ entry_said self.now }
        ensures chip { IsOfChip (entry_of result) }
    {
        match self {
            TraceEntry::Bus(event, answer) => Event::Bus(*event, *answer),
            TraceEntry::Link(step) => Event::Link(step.socket, step.what.what()),
            TraceEntry::Rest => Event::Rest,
        }
    }
}
