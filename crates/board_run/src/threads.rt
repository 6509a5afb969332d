//! Both sides of a live run: the firmware in the caller's thread, and the links in a thread of their own where one can be
//! started.
ghost use Rattle.std.specs.Prelude.{◌≡◌, ◌≤◌, ◌^◌, None};
ghost use Rattle.std.specs.Thread.{IsSend, IsSync};
ghost use Rattle.wz_base.specs.Outside.{RisesOnly};
ghost use Rattle.board_sim.specs.Playing.{printing};
ghost use Rattle.board_run.specs.Going.{IsReady};
ghost use Rattle.board_run.specs.Ran.{RanTo, side};
ghost use Rattle.board_run.specs.Sides.{HandsBack, IsLeft, Quiet};

use crate::firmware::{Cut, Firmware};
use crate::wire::Unanswered;
use avr_mcu::Mcu;
use chip_lock::pass::Pass;
use chip_lock::turn::Turn;
use link_trait::links::Links;
use live_trait::{Gate, Poller};
use ready_loop::ready::run_ready;
use std::snapshot::Snapshot;
use std::sync::Wait;
use std::sync::atomic::AtomicBool;
use std::sync::atomic::Ordering::SeqCst;
use std::thread;
use std::thread::{Promise, Threads};
use wz_base::Sink;

/// What the firmware's side leaves.
#[derive(Drop)]
pub struct Ran<'a, L: Links, K> {
    /// The microcontroller.
    pub mcu: Mcu,
    /// Its pass, which has ended.
    pub pass: Pass<L>,
    /// The first event that got no answer.
    pub refused: Option<Unanswered>,
    /// The last byte that it printed.
    pub last: Option<u8>,
    /// What cut it.
    pub cut: Cut,
    /// Where it printed.
    pub out: &'a mut K,
}

/// What the side of the links leaves.
#[derive(Drop)]
pub(crate) struct Served<L: Links, P> {
    /// Its pass.
    pub(crate) pass: Pass<L>,
    /// Its poller.
    pub(crate) poller: P,
}

/// What is promised of what the thread of the links hands back.
#[derive(Drop)]
struct ServesWith<L: Links, P> {
    pass: Snapshot<Pass<L>>,
    poller: Snapshot<P>,
}

impl<L: Links, P: Poller> Promise<Served<L, P>> for ServesWith<L, P> {
    ghost kept_by = { λ p r. HandsBack P.faults p.pass.value p.poller.value r.pass r.poller };
}

impl<'a, R: Wait, L: Links, G: Gate> Firmware<'a, R, L, G> {
    /// What is left of this side, which was cut so: its pass ends here, if it has not ended.
    fn leave<'b, K>(self, cut: Cut, out: &'b mut K) -> Ran<'b, L, K>
        ensures same_reference { result.out.ghost_name ≡ out.entry.ghost_name }
        ensures out { result.out.now ≡ out.entry.now }
        ensures mcu { result.mcu ≡ self.entry.mcu }
        ensures pass { IsLeft self.entry.wire result.pass }
        ensures refused { result.refused ≡ self.entry.wire.refused }
        ensures last { result.last ≡ self.entry.last }
        ensures cut { result.cut ≡ cut }
    {
        let Firmware {
            mcu,
            wire,
            cycles: _,
            last,
        } = self;
        let (pass, refused) = wire.finish();
        Ran {
            mcu,
            pass,
            refused,
            last,
            cut,
            out,
        }
    }

    /// Runs it beside the thread of the links.
    fn run_beside<'b, K: Sink>(mut self, out: &'b mut K) -> Ran<'b, L, K>
        requires ready { IsReady self.cycles self.mcu }
        requires limit { self.cycles ≤ 2 ^ 63 }
        ensures same_reference { result.out.ghost_name ≡ out.entry.ghost_name }
        ensures ran { RanTo self.entry.cycles result.cut (side self.entry.mcu self.entry.wire.pass self.entry.wire.refused (printing (K.written out.entry.now) self.entry.last))
            (side result.mcu result.pass result.refused (printing (K.written result.out.now) result.last)) }
        ensures faults { RisesOnly (result.cut ≡ Cut.WriteFault) (K.faults out.entry.now) (K.faults result.out.now) }
    {
        let cut = self.go(out);
        self.leave(cut, out)
    }

    /// Runs it on one thread, with sweeps of the links between its steps.
    pub fn run_alone<'b, K: Sink>(mut self, links: &mut Pass<L>, out: &'b mut K) -> Ran<'b, L, K>
        requires ready { IsReady self.cycles self.mcu }
        requires limit { self.cycles ≤ 2 ^ 63 }
        requires turn { links.old.turn ≡ self.wire.turn }
        ensures same_reference { result.out.ghost_name ≡ out.entry.ghost_name }
        ensures ran { RanTo self.entry.cycles result.cut (side self.entry.mcu self.entry.wire.pass self.entry.wire.refused (printing (K.written out.entry.now) self.entry.last))
            (side result.mcu result.pass result.refused (printing (K.written result.out.now) result.last)) }
        ensures quiet { Quiet links.old links.new }
        ensures faults { RisesOnly (result.cut ≡ Cut.WriteFault) (K.faults out.entry.now) (K.faults result.out.now) }
    {
        let cut = self.go_alone(links, out);
        self.leave(cut, out)
    }
}

/// Serves the links until the turns are over, unless the thread for it could not be started.
fn serve<R: Wait, L: Links + Send, P: Poller, G: Gate>(
    rt: &R,
    turn: &Turn<L>,
    gate: &G,
    mut pass: Pass<L>,
    mut poller: P,
    is_refused: &AtomicBool,
) -> Served<L, P>
    requires { pass.turn ≡ turn.now }
    ensures { HandsBack P.faults pass poller result.pass result.poller }
{
    if !is_refused.load(SeqCst) {
        let _ = run_ready(rt, turn, &mut pass, &mut poller, gate);
    }
    Served { pass, poller }
}

/// Both sides to their end: the links in a thread of their own, or by turns on the caller's thread where none can be started.
pub(crate) fn run_both<
    'a,
    'b,
    R: Threads + Wait + Sync,
    L: Links + Send + Drop,
    P: Poller + Send + Drop,
    G: Gate + Sync,
    K: Sink,
>(
    rt: &R,
    turn: &Turn<L>,
    gate: &G,
    firmware: Firmware<'a, R, L, G>,
    links: Pass<L>,
    poller: P,
    out: &'b mut K,
) -> (Ran<'b, L, K>, Served<L, P>)
    requires ready { IsReady firmware.cycles firmware.mcu }
    requires limit { firmware.cycles ≤ 2 ^ 63 }
    requires first { firmware.wire.turn ≡ turn.now }
    requires second { links.turn ≡ turn.now }
    ensures same_reference { result.0.out.ghost_name ≡ out.entry.ghost_name }
    ensures ran { RanTo firmware.entry.cycles result.0.cut (side firmware.entry.mcu firmware.entry.wire.pass firmware.entry.wire.refused (printing (K.written out.entry.now) firmware.entry.last))
        (side result.0.mcu result.0.pass result.0.refused (printing (K.written result.0.out.now) result.0.last)) }
    ensures served { HandsBack P.faults links poller result.1.pass result.1.poller }
    ensures faults { RisesOnly (result.0.cut ≡ Cut.WriteFault) (K.faults out.entry.now) (K.faults result.0.out.now) }
{
    let is_refused = AtomicBool::new(false);
    let flag = &is_refused;
    thread::scope(
        thread::scope_env(),
        rt,
        move |scope| -> (Ran<'_, L, K>, Served<L, P>)
            requires send { IsSync R.row × IsSend L.row × IsSend P.row × IsSync G.row }
            requires ready { IsReady firmware.cycles firmware.mcu }
            requires limit { firmware.cycles ≤ 2 ^ 63 }
            requires first { firmware.wire.turn ≡ turn.now }
            requires second { links.turn ≡ turn.now }
            ensures same_reference { result.0.out.ghost_name ≡ out.entry.ghost_name }
            ensures ran { RanTo firmware.entry.cycles result.0.cut (side firmware.entry.mcu firmware.entry.wire.pass firmware.entry.wire.refused (printing (K.written out.entry.now) firmware.entry.last))
                (side result.0.mcu result.0.pass result.0.refused (printing (K.written result.0.out.now) result.0.last)) }
            ensures served { HandsBack P.faults links poller result.1.pass result.1.poller }
            ensures faults { RisesOnly (result.0.cut ≡ Cut.WriteFault) (K.faults out.entry.now) (K.faults result.0.out.now) }
        {
            let promise = ServesWith {
                pass: Snapshot::of(&links),
                poller: Snapshot::of(&poller),
            };
            match scope.spawn_with(
                promise,
                move || -> Served<L, P>
                    requires { IsSync R.row × IsSend L.row × IsSend P.row × IsSync G.row × (links.turn ≡ turn.now) }
                { serve(rt, turn, gate, links, poller, flag) },
            ) {
                Ok(child) => {
                    let ran = firmware.run_beside(out);
                    (ran, child.join(rt))
                }
                Err(refused) => {
                    flag.store(true, SeqCst);
                    let Served { mut pass, poller } = (refused.value)();
                    let ran = firmware.run_alone(&mut pass, out);
                    (ran, Served { pass, poller })
                }
            }
        },
    )
}
