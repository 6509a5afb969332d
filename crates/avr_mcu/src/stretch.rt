//! Plain instructions in a row: the loop in which nearly all of a run's time goes.
ghost use Rattle.std.specs.Prelude.{◌≡◌, ◌<◌, ◌≤◌, ◌+◌, ◌^◌, ◌⊎◌, IsTrue, false, take};
ghost use Rattle.avr_mcu.specs.Step.{raises};
ghost use Rattle.avr_mcu.specs.Stretch.{RunsPlain, begun};
ghost use Rattle.avr_sheet.specs.BitNames.{I};
ghost use Rattle.avr_sheet.specs.Bits.{is_set};

use avr_core::{Code, Core, Memory};
use avr_sheet::is_set;

/// I of SREG.
const I_BIT: u8 = 7;

/// Whether I is set in the second of two values of SREG, and clear in the first.
pub fn raises(before: u8, after: u8) -> bool
    ensures { result ≡ raises before after }
{
    !is_set(before, I_BIT) && is_set(after, I_BIT)
}

/// Whether an instruction more may begin: there is room for it, it is not too late, and no interrupt comes first.
#[inline(always)]
fn may_begin(ran: u8, room: u8, spent: u64, most: u64, calm: u64, core: &Core) -> bool
    ensures room { IsTrue result → ran < room }
    ensures early { IsTrue result → spent < most }
    ensures calm { IsTrue result → (spent < calm) ⊎ (is_set core.now.sreg I ≡ false) }
{
    ran < room && spent < most && (spent < calm || !is_set(core.sreg(), I_BIT))
}

/// Runs plain instructions: at most `room`, at most 63, each of which begins before `most` cycles are spent, and before `calm`
/// cycles or with I clear. Gives how many ran, the cycles that they took, and SREG before the last of them; their addresses are
/// at the head of `addresses`.
///
/// A function of its own, with no peer and no type parameter, so that its values stay in registers.
#[inline(never)]
pub fn stretch(
    code: &Code,
    core: &mut Core,
    memory: &mut Memory,
    room: u8,
    most: u64,
    calm: u64,
    addresses: &mut [u16; 64],
) -> (u8, u64, u8)
    requires room { room ≤ 63 }
    requires most { most ≤ 2 ^ 63 }
    ensures runs { RunsPlain code.now most calm result.0 (begun core.old memory.old) (record { core = core.new; memory = memory.new; was = result.2; addresses = take result.0 addresses.new; spent = result.1 }) }
    ensures few { result.0 ≤ room }
    ensures least { result.0 ≤ result.1 }
    ensures time { result.1 ≤ most + 3 }
{
    let mut ran = 0;
    let mut spent = 0;
    let mut was = core.sreg();
    'plain: while may_begin(ran, room, spent, most, calm, core) {
        let at = core.pc();
        let before = core.sreg();
        match core.run_plain(code, memory) {
            None => return (ran, spent, was),
            Some(cycles) => {
                addresses[ran as usize] = at;
                was = before;
                ran += 1;
                spent += u64::from(cycles);
            }
        }
    }
    (ran, spent, was)
}
