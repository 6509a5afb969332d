//! A chip with its history.

ghost use Rattle.std.specs.Prelude.{◌≡◌, ◌<◌, [], ◌∷◌, None, Some, IfOk, OnOk, OnErr, IfErr, false, true, length};
ghost use Rattle.board_bus.specs.declared.event.BusAnswer.{BusAnswer};
ghost use Rattle.chip_sheet.specs.declared.event.Entry.TheVariants.{Link};
ghost use Rattle.chip_sheet.specs.Past.{link_entry};
ghost use Rattle.chip_sheet.specs.Legal.{Legal};
ghost use Rattle.chip_sheet.specs.LinkCalls.{fits};
ghost use Rattle.chip_sheet.specs.Replay.{Asks, Happens};
ghost use Rattle.chip_hist.specs.Log.{link_data};
ghost use Rattle.board_gen.specs.SessionState.{HasTextRoom};
ghost use Rattle.board_gen.specs.Views.{entry_of, step_of};

use crate::token::{LinkToken, Token};
use chip_core::Chip;
use chip_core::laws::{fits_agrees, legal_of, short_is_few, starts_are};
use chip_hist::history::History;
use chip_sheet::event::{BusAnswer, BusEvent, Event};
use chip_sheet::stop::ChipStop;
use std::alloc::{AllocError, Global};
use std::marker::Model;

/// How much the history of a script is meant to hold, in units of weight. The script of a text of 67,108,864 bytes never has
/// more.
pub const WEIGHT_LIMIT: u64 = 33_554_432;

/// Why a script does not go on.
#[derive(Clone, Copy, Debug, PartialEq, Eq)]
pub enum Halt {
    /// The chip answered a stop.
    Stopped(ChipStop),
    /// A link event does not fit.
    NotDue,
    /// Memory was not there.
    NoMemory,
}

/// A chip that stands for its history, which is legal.
#[derive(Drop)]
pub struct Session {
    /// The chip.
    chip: Chip,
    /// What happened on its bus and its links.
    history: History,
}

impl Model for Session {
    ghost use Rattle.board_gen.specs.SessionState.{SessionState, Together};
    ghost use Rattle.chip_core.specs.Chip.{starts_of, stop_kept};

    ghost Value = { SessionState };

    ghost view = { λ s. record { starts = starts_of s.chip; past = s.history.past; stopped = stop_kept s.chip } };

    ghost invariant = { λ s. Together s.chip s.history };
}

// How many bytes of data come with what a link did.
fn data_len(what: &LinkToken) -> u64
    ensures { result ≡ length (link_data (entry_of what.now)) }
{
    match what {
        LinkToken::Got(bytes) => bytes.len() as u64,
        LinkToken::Datagram(_, bytes) => bytes.len() as u64,
        _ => 0,
    }
}

impl Session {
    ghost use Rattle.board_gen.specs.Session.{Takes, Halts};

    /// A new chip with an empty history, whose pointers start so.
    ///
    /// # Errors
    ///
    /// Want of memory alone.
    pub fn new(alloc: Global, tx_start: u16, rx_start: u16) -> Result<Session, AllocError>
        ensures starts { IfOk result (λ s. s.starts ≡ record { tx = tx_start; rx = rx_start }) }
        ensures past { IfOk result (λ s. s.past ≡ []) }
        ensures running { IfOk result (λ s. s.stopped ≡ None) }
    {
        match Chip::new(alloc, tx_start, rx_start) {
            Ok(chip) => Ok(Session {
                chip,
                history: History::new(alloc, WEIGHT_LIMIT),
            }),
            Err(AllocError) => Err(AllocError),
        }
    }

    // One event of the bus, which is added to the history with the chip's answer.
    fn ask(&mut self, e: BusEvent) -> Result<BusAnswer, Halt>
        requires running { self.old.stopped ≡ None }
        requires light { HasTextRoom self.old.past 0 }
        ensures ok { IfOk result (λ a. Takes self.old.starts self.old.past (Asks e) (Some a) self.new.past) }
        ensures err { IfErr result (Halts self.old.starts self.old.past (Asks e)) }
        ensures starts { self.new.starts ≡ self.old.starts }
        ensures running { OnOk result (self.new.stopped ≡ None) }
        ensures same { OnErr result (self.new.past ≡ self.old.past) }
    {
        if self.history.reserve(1, 0).is_err() {
            return Err(Halt::NoMemory);
        }
        short_is_few();
        starts_are();
        match self.chip.bus(e) {
            Ok(a) => {
                self.history.push(Event::Bus(e, a));
                Ok(a)
            }
            Err(stop) => Err(Halt::Stopped(stop)),
        }
    }

    // What the link below a socket did, which is added to the history where it fits.
    fn happen(&mut self, sn: u8, token: &LinkToken) -> Result<(), Halt>
        requires running { self.old.stopped ≡ None }
        requires light { HasTextRoom self.old.past 0 }
        requires sn { sn < 8 }
        ensures ok { OnOk result (Takes self.old.starts self.old.past (Happens sn (entry_of token.now)) None self.new.past) }
        ensures err { IfErr result (Halts self.old.starts self.old.past (Happens sn (entry_of token.now))) }
        ensures starts { self.new.starts ≡ self.old.starts }
        ensures running { OnOk result (self.new.stopped ≡ None) }
        ensures same { OnErr result (self.new.past ≡ self.old.past) }
    {
        let what = token.what();
        fits_agrees();
        if !self.chip.fits(sn, &what) {
            return Err(Halt::NotDue);
        }
        if self.history.reserve(1, data_len(token)).is_err() {
            return Err(Halt::NoMemory);
        }
        short_is_few();
        starts_are();
        self.chip.link(sn, &what);
        self.history.push(Event::Link(sn, what));
        Ok(())
    }

    /// Takes a step of a script, and answers what the chip does to an event of its bus.
    ///
    /// # Errors
    ///
    /// The chip's stop exactly where the event has one, `NotDue` exactly where a link event does not fit, and want of memory. The
    /// history is as before then.
    pub fn take(&mut self, token: &Token) -> Result<Option<BusAnswer>, Halt>
        requires running { self.old.stopped ≡ None }
        requires light { HasTextRoom self.old.past 0 }
        ensures ok { IfOk result (λ a. Takes self.old.starts self.old.past (step_of token.now) a self.new.past) }
        ensures err { IfErr result (Halts self.old.starts self.old.past (step_of token.now)) }
        ensures starts { self.new.starts ≡ self.old.starts }
        ensures running { OnOk result (self.new.stopped ≡ None) }
        ensures same { OnErr result (self.new.past ≡ self.old.past) }
    {
        match token {
            Token::Bus(e) => match self.ask(*e) {
                Ok(a) => Ok(Some(a)),
                Err(halt) => Err(halt),
            },
            Token::Link(step) => match self.happen(step.socket, &step.what) {
                Ok(()) => Ok(None),
                Err(halt) => Err(halt),
            },
        }
    }

    /// The history.
    pub fn into_history(self) -> History
        ensures past { result.past ≡ self.past }
        ensures legal { Legal self.starts result.past }
    {
        legal_of();
        self.history
    }
}
