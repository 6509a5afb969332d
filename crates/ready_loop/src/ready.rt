//! Serving the links until the turns are over.
ghost use Rattle.std.specs.Prelude.{◌≡◌, ◌≤◌, None, Some, IfErr, OnOk};
ghost use Rattle.chip_lock.specs.declared.over.Over.{Over};
ghost use Rattle.ready_loop.specs.Serving.{GivesFault, Serves};

use chip_lock::over::Over;
use chip_lock::pass::Pass;
use chip_lock::turn::Turn;
use chip_shared::sweep::after_step;
use link_trait::links::Links;
use live_trait::{Gate, Point, Poller};
use std::sync::Wait;

/// One sweep over the places 0 to 15, each step in a turn of its own: from behind the place at which a call was made, until
/// nothing is due or the last place was met. The gate is passed after each step, outside of the turn. It makes no event of the
/// bus.
///
/// # Errors
///
/// The cause with which the pass ended, or had ended. It may wait for its turns.
pub fn sweep<R: Wait, L: Links, G: Gate>(
    rt: &R,
    turn: &Turn<L>,
    pass: &mut Pass<L>,
    gate: &G,
) -> Result<(), Over>
    requires turn { pass.old.turn ≡ turn.now }
    ensures serves { Serves pass.old pass.new }
    ensures gave { pass.new.gave ≡ pass.old.gave }
    ensures goes_on { OnOk result (pass.new.ended ≡ None) }
    ensures ended { IfErr result (λ why. pass.new.ended ≡ Some why) }
    ensures before { (c : Over) → pass.old.ended ≡ Some c → (pass.new ≡ pass.old) × IfErr result (λ why. why ≡ c) }
{
    let mut next = Some(0);
    while let Some(from) = next {
        match turn.link(rt, pass, from) {
            Ok(did) => {
                gate.at(Point::Link);
                next = after_step(did);
            }
            Err(why) => return Err(why),
        }
    }
    Ok(())
}

/// A sweep, and the wait for readiness behind it. A wait that failed ends the pass, and so does a sweep that was refused.
///
/// Answers the cause with which the pass has ended, or `None` where it goes on: then no wait failed. It may wait for its turns.
pub fn serve_once<R: Wait, L: Links, P: Poller, G: Gate>(
    rt: &R,
    turn: &Turn<L>,
    pass: &mut Pass<L>,
    poller: &mut P,
    gate: &G,
) -> Option<Over>
    requires turn { pass.old.turn ≡ turn.now }
    ensures serves { Serves pass.old pass.new }
    ensures ended { pass.new.ended ≡ result }
    ensures goes_on { result ≡ None → P.faults poller.new ≡ P.faults poller.old }
    ensures faults { P.faults poller.old ≤ P.faults poller.new }
    ensures gave { GivesFault (P.faults poller.old) (P.faults poller.new) pass.old pass.new }
    ensures quiet { result ≡ None → pass.new.gave ≡ pass.old.gave }
    ensures before { (c : Over) → pass.old.ended ≡ Some c → (result ≡ Some c) × (pass.new ≡ pass.old) × (P.faults poller.new ≡ P.faults poller.old) }
{
    if let Err(why) = sweep(rt, turn, pass, gate) {
        return Some(why);
    }
    if poller.wait().is_err() {
        return Some(turn.end(rt, pass, Over::PollFault));
    }
    None
}

/// Serves the links until this pass has ended: a sweep, then a wait for readiness, and so on.
///
/// Answers the cause with which the pass ended: the one that is kept, or the one for which a step was refused; where a wait
/// failed, [`Over::PollFault`], unless another cause is kept by then. It may wait for its turns, and returns only where the turns
/// end.
pub fn run_ready<R: Wait, L: Links + Send, P: Poller, G: Gate>(
    rt: &R,
    turn: &Turn<L>,
    pass: &mut Pass<L>,
    poller: &mut P,
    gate: &G,
) -> Over
    requires turn { pass.old.turn ≡ turn.now }
    ensures serves { Serves pass.old pass.new }
    ensures ended { pass.new.ended ≡ Some result }
    ensures faults { P.faults poller.old ≤ P.faults poller.new }
    ensures gave { GivesFault (P.faults poller.old) (P.faults poller.new) pass.old pass.new }
    ensures before { (c : Over) → pass.old.ended ≡ Some c → (result ≡ c) × (pass.new ≡ pass.old) × (P.faults poller.new ≡ P.faults poller.old) }
{
    for _ in rt.forever() {
        if let Some(why) = serve_once(rt, turn, pass, poller, gate) {
            return why;
        }
    }
    unreachable!()
}
