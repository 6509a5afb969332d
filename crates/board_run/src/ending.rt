//! How a live run ends: both passes are given back, what is in flight is offered to the links, and the report is written.
ghost use Rattle.std.specs.Prelude.{◌≡◌, ◌⊎◌, ℕ, None, Some};
ghost use Rattle.wz_base.specs.Outside.{RisesOnly};
ghost use Rattle.chip_core.specs.Chip.{Stands};
ghost use Rattle.chip_sheet.specs.Streams.{Starts};
ghost use Rattle.avr_run.specs.Told.{EndWants};
ghost use Rattle.avr_mcu.specs.declared.run.RunEnd as ends;
ghost use Rattle.chip_lock.specs.declared.over.Over.{Over};
ghost use Rattle.board_sim.specs.Exchanges.{asked_of, answers_of};
ghost use Rattle.board_sim.specs.Finishing.{ReportsBehind};
ghost use Rattle.board_sim.specs.Report.{report_of};
ghost use Rattle.board_run.specs.Wires.{told_by, wanted_of};
ghost use Rattle.board_run.specs.Sides.{EndsBy, IsQuietOther, OnlyFault};
ghost use Rattle.board_run.specs.Closing.{CauseOf, EndedFor, HasBus, IsEnd, IsNotFinished, IsOver, StallsOnly};
ghost use Rattle.board_run.specs.Lives.{IsClosing};

use crate::firmware::Cut;
use crate::wire::Unanswered;
use avr_mcu::Mcu;
use avr_run::RunEnd as FirmwareEnd;
use board_sim::end::RunEnd;
use board_sim::output::write_report;
use chip_core::Chip;
use chip_hist::History;
use chip_lock::over::Over;
use chip_lock::pass::Pass;
use chip_lock::turn::Turn;
use chip_shared::closing::Closing;
use chip_shared::shared::Shared;
use link_trait::links::Links;
use std::alloc::Global;
use wz_base::Sink;

/// The state that both passes leave. Its events of the bus are the first pass's, and the cause with which that pass ended has its
/// reason.
fn gather<L: Links>(
    turn: Turn<L>,
    firmware: Pass<L>,
    links: Pass<L>,
    refused: Option<Unanswered>,
) -> Shared<L>
    requires first { firmware.turn ≡ turn }
    requires second { links.turn ≡ turn }
    requires ends { EndsBy firmware refused }
    requires quiet { IsQuietOther links }
    ensures bus { HasBus (told_by firmware.mine refused).asked (told_by firmware.mine refused).answers result }
    ensures cause { (before after : ℕ) → OnlyFault before after links.gave → CauseOf refused result before after }
    ensures starts { result.starts ≡ firmware.starts }
    ensures limit { result.log.limit ≡ firmware.limit }
{
    turn.close(firmware, links)
}

/// The end of a run whose last event got no answer, by the cause with which the turns ended.
fn unanswered(why: Over) -> RunEnd
    requires { why ≡ Over.Finished → ⊥ }
    ensures { EndedFor why result }
{
    match why {
        Over::Stopped(stop) => RunEnd::Chip(stop),
        Over::TraceFull => RunEnd::TraceFull,
        Over::NoMemory => RunEnd::NoMemory,
        Over::PollFault => RunEnd::PollFault,
        Over::Finished => unreachable!(),
    }
}

/// Offers what is in flight to the links, behind a run that ended so.
fn close<L: Links>(shared: &mut Shared<L>, end: RunEnd) -> RunEnd
    requires unstopped { shared.old.stopped ≡ None }
    ensures end { (result ≡ RunEnd.NoMemory) ⊎ (result ≡ end) }
    ensures bus { HasBus (asked_of shared.old.log.past) (answers_of shared.old.log.past) shared.new }
    ensures stalls { result ≡ end → (end ≡ RunEnd.NoMemory → ⊥) → StallsOnly L.shown shared.new }
    ensures starts { shared.new.starts ≡ shared.old.starts }
    ensures limit { shared.new.log.limit ≡ shared.old.log.limit }
{
    match shared.closing() {
        Closing::NoMemory => RunEnd::NoMemory,
        Closing::Clear | Closing::Waiting | Closing::Faulted | Closing::Full => end,
    }
}

/// The end of a run whose last step ended it. After a `break`, a `sleep` from which nothing wakes, and the limit of cycles,
/// closing is made.
fn end_step<L: Links>(
    shared: &mut Shared<L>,
    end: FirmwareEnd,
    refused: Option<Unanswered>,
) -> RunEnd
    requires wants { EndWants end (wanted_of refused) }
    requires unstopped { refused ≡ None → shared.old.stopped ≡ None }
    requires cause { IsNotFinished refused }
    ensures end { IsEnd (Cut.Step end) refused shared.old result shared.new }
    ensures stalls { IsClosing result → StallsOnly L.shown shared.new }
    ensures bus { HasBus (asked_of shared.old.log.past) (answers_of shared.old.log.past) shared.new }
    ensures starts { shared.new.starts ≡ shared.old.starts }
    ensures limit { shared.new.log.limit ≡ shared.old.log.limit }
{
    match end {
        FirmwareEnd::Break => close(shared, RunEnd::Break),
        FirmwareEnd::Sleep => close(shared, RunEnd::Sleep),
        FirmwareEnd::CycleLimit => close(shared, RunEnd::CycleLimit),
        FirmwareEnd::Stop(stop) => RunEnd::Avr(stop),
        FirmwareEnd::Wants(_) => match refused {
            Some(refused) => unanswered(refused.why),
            None => unreachable!(),
        },
    }
}

/// The end of a run that was cut so.
fn end_of<L: Links>(shared: &mut Shared<L>, cut: Cut, refused: Option<Unanswered>) -> RunEnd
    requires wants { (e : ends.RunEnd) → cut ≡ Cut.Step e → EndWants e (wanted_of refused) }
    requires unstopped { refused ≡ None → shared.old.stopped ≡ None }
    requires cause { IsNotFinished refused }
    ensures end { IsEnd cut refused shared.old result shared.new }
    ensures stalls { IsClosing result → StallsOnly L.shown shared.new }
    ensures bus { HasBus (asked_of shared.old.log.past) (answers_of shared.old.log.past) shared.new }
    ensures starts { shared.new.starts ≡ shared.old.starts }
    ensures limit { shared.new.log.limit ≡ shared.old.log.limit }
{
    match cut {
        Cut::Step(end) => end_step(shared, end, refused),
        Cut::WriteFault => RunEnd::WriteFault,
    }
}

/// What both sides of a run leave that was cut so, once their passes are given back: the state, and the end.
pub(crate) fn end_both<L: Links>(
    turn: Turn<L>,
    firmware: Pass<L>,
    links: Pass<L>,
    refused: Option<Unanswered>,
    cut: Cut,
) -> (Shared<L>, RunEnd)
    requires first { firmware.turn ≡ turn }
    requires second { links.turn ≡ turn }
    requires ends { EndsBy firmware refused }
    requires quiet { IsQuietOther links }
    requires gave { (before : ℕ) × ((after : ℕ) × OnlyFault before after links.gave) }
    requires wants { (e : ends.RunEnd) → cut ≡ Cut.Step e → EndWants e (wanted_of refused) }
    ensures over { IsOver L.shown (record { told = told_by firmware.mine refused; cut = cut; refused = refused; gave = links.gave }) result.1 result.0 }
    ensures starts { result.0.starts ≡ firmware.starts }
    ensures limit { result.0.log.limit ≡ firmware.limit }
{
    let mut shared = gather(turn, firmware, links, refused);
    let end = end_of(&mut shared, cut, refused);
    (shared, end)
}

/// Writes the report of a run that ended so, where one is due: not behind a failed write, nor where memory ran out.
pub(crate) fn report_end<K: Sink>(
    alloc: Global,
    chip: &Chip,
    history: &History,
    mcu: &Mcu,
    last: Option<u8>,
    end: RunEnd,
    out: &mut K,
) -> RunEnd
    ensures reports { (starts : Starts) → Stands starts chip.now history.now.past
        → ReportsBehind end (report_of starts history.now.past last mcu.now.devices.cycles mcu.now.trail end) result (K.written out.old) (K.written out.new) }
    ensures faults { (end ≡ RunEnd.WriteFault → ⊥) → RisesOnly (result ≡ RunEnd.WriteFault) (K.faults out.old) (K.faults out.new) }
    ensures still { end ≡ RunEnd.WriteFault → K.faults out.new ≡ K.faults out.old }
{
    match end {
        RunEnd::WriteFault | RunEnd::NoMemory => end,
        _ => write_report(alloc, chip, history, mcu, last, end, out),
    }
}
