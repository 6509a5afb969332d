//! Many steps of a run at once.
ghost use Rattle.std.specs.Prelude.{◌≡◌, ◌<◌, ◌≤◌, ◌+◌, ◌^◌, ◌++◌, ℕ, List, None, Some};
ghost use Rattle.avr_mcu.specs.Run.{byte_of};
ghost use Rattle.avr_mcu.specs.State.{McuState};
ghost use Rattle.avr_mcu.specs.declared.run.RunEnd.{RunEnd};
ghost use Rattle.avr_run.specs.Steps.{IsStretch};
ghost use Rattle.avr_run.specs.Told.{SoFar, Ended, Told};

use avr_mcu::{Mcu, RunEnd, at_limit};

/// What many steps of a run at once came to.
#[derive(Drop)]
pub struct Stretch {
    /// How many there were. Each counts as an instruction: it ran one or slept a cycle, and none entered an interrupt.
    pub steps: u64,
    /// The byte that the last of them printed.
    pub byte: Option<u8>,
    /// The end of the run, if it has come to the limit of cycles.
    pub end: Option<RunEnd>,
}

/// Makes steps of a run that ask nothing of the bus, at most `most`: none, or some, as `Mcu::hurry` does; the printed byte is
/// taken.
///
/// Where the run goes on (`end` is None), a run so far has come these steps further; else it is the whole run, with this end. The
/// last step left the cycles below the limit, and 2^63 is the highest limit.
pub fn take_stretch(mcu: &mut Mcu, limit: u64, most: u64) -> Stretch
    requires limit { limit ≤ 2 ^ 63 }
    requires below { mcu.old.devices.cycles < limit }
    ensures goes { result.end ≡ None → (start : McuState) (serial : List ℕ) (told : Told) → SoFar limit start serial mcu.old told
        → SoFar limit start (serial ++ byte_of result.byte) mcu.new told }
    ensures rises { mcu.old.devices.cycles + result.steps ≤ mcu.new.devices.cycles }
    ensures below { result.end ≡ None → mcu.new.devices.cycles < limit }
    ensures most { result.steps ≤ most }
    ensures few { result.steps ≤ 63 }
    ensures ends { (end : RunEnd) → result.end ≡ Some end → (start : McuState) (serial : List ℕ) (told : Told) → SoFar limit start serial mcu.old told
        → Ended limit start (serial ++ byte_of result.byte) mcu.new told end }
    ensures stretch { IsStretch limit mcu.old result.steps result.byte result.end mcu.new }
{
    let steps = mcu.hurry(limit, most);
    let end = at_limit(limit, mcu.cycles());
    let byte = mcu.printed();
    Stretch { steps, byte, end }
}
