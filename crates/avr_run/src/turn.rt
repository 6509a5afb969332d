//! One step of a run.
ghost use Rattle.std.specs.Prelude.{◌≡◌, ◌<◌, ◌≤◌, ◌+◌, ◌^◌, ◌++◌, ℕ, List, None, Some};
ghost use Rattle.avr_mcu.specs.Run.{byte_of};
ghost use Rattle.avr_mcu.specs.State.{McuState};
ghost use Rattle.avr_mcu.specs.declared.run.RunEnd.{RunEnd};
ghost use Rattle.avr_run.specs.Steps.{IsStep, instructions_of};
ghost use Rattle.avr_run.specs.Told.{SoFar, Ended};

use crate::peer::ToldPeer;
use avr_mcu::{Mcu, McuWent, RunEnd, end_of};

/// What one step of a run came to.
#[derive(Drop)]
pub struct Turn {
    /// How the step went.
    pub went: McuWent,
    /// The byte that it printed.
    pub byte: Option<u8>,
    /// The end of the run, if this was its last step.
    pub end: Option<RunEnd>,
}

impl Turn {
    /// How many instructions the step counts as: a cycle asleep counts as one, and an interrupt entry as none. So does the step
    /// at which a run ends by itself.
    pub fn instructions(&self) -> u64
        ensures { result ≡ instructions_of self.now.went }
    {
        match self.went {
            McuWent::Ran | McuWent::Asleep => 1,
            McuWent::Served
            | McuWent::Break
            | McuWent::Sleep
            | McuWent::BusOver
            | McuWent::Stop(_) => 0,
        }
    }
}

/// One step of a run over a peer; the printed byte is taken.
///
/// Where the run goes on (`end` is None), a run so far has come one step further; else it is the whole run, with this end.
/// `limit` is in cycles since reset, and `mcu.cycles()` is below 2^63. A step that goes on leaves the cycles below the limit.
pub fn take_turn<B: ToldPeer>(mcu: &mut Mcu, peer: &mut B, limit: u64) -> Turn
    requires { mcu.old.devices.cycles < 2 ^ 63 }
    ensures goes { result.end ≡ None → (start : McuState) (serial : List ℕ) → SoFar limit start serial mcu.old (B.told peer.old)
        → SoFar limit start (serial ++ byte_of result.byte) mcu.new (B.told peer.new) }
    ensures rises { result.end ≡ None → mcu.old.devices.cycles + 1 ≤ mcu.new.devices.cycles }
    ensures below { result.end ≡ None → mcu.new.devices.cycles < limit }
    ensures ends { (end : RunEnd) → result.end ≡ Some end → (start : McuState) (serial : List ℕ) → SoFar limit start serial mcu.old (B.told peer.old)
        → Ended limit start (serial ++ byte_of result.byte) mcu.new (B.told peer.new) end }
    ensures step { IsStep B.did limit mcu.old peer.old peer.new (B.told peer.new).wanted result.went result.byte result.end mcu.new }
{
    let went = mcu.step(peer);
    let end = end_of(peer.wanted(), went, limit, mcu.cycles());
    let byte = mcu.printed();
    Turn { went, byte, end }
}
