//! A whole run over a peer: the smallest loop of turns and stretches.
ghost use Rattle.std.specs.Prelude.{◌≡◌, ◌<◌, ◌≤◌, ◌^◌, ◌++◌, [], IfOk};
ghost use Rattle.avr_mcu.specs.Run.{byte_of};
ghost use Rattle.avr_mcu.specs.State.{McuState};
ghost use Rattle.avr_run.specs.Told.{SoFar, Ended};

use crate::peer::ToldPeer;
use crate::stretch::take_stretch;
use crate::turn::take_turn;
use avr_mcu::{Mcu, Run};
use std::alloc::{AllocError, Global};

/// Runs the firmware over a peer until its run ends, and gives the bytes that it printed and its end.
///
/// From a run that has come so far, with no byte printed yet, it is the whole run on the answers that the peer gave: what was
/// asked, the bytes, the cycles, the trail and the end. The error says that no memory was left for the bytes.
pub fn run_told<B: ToldPeer>(
    alloc: Global,
    mcu: &mut Mcu,
    peer: &mut B,
    limit: u64,
) -> Result<Run, AllocError>
    requires limit { limit ≤ 2 ^ 63 }
    requires cycles { mcu.old.devices.cycles < 2 ^ 63 }
    ensures { IfOk result (λ r. (start : McuState) → SoFar limit start [] mcu.old (B.told peer.old)
        → Ended limit start r.serial.items mcu.new (B.told peer.new) r.end) }
{
    let mut serial = Vec::new(alloc);
    'turns: loop {
        let turn = take_turn(mcu, peer, limit);
        add(&mut serial, turn.byte)?;
        match turn.end {
            Some(end) => return Ok(Run { serial, end }),
            None => {}
        }
        let stretch = take_stretch(mcu, limit, u64::MAX);
        add(&mut serial, stretch.byte)?;
        match stretch.end {
            Some(end) => return Ok(Run { serial, end }),
            None => {}
        }
    }
}

/// Adds a byte, if there is one.
fn add(serial: &mut Vec<u8>, byte: Option<u8>) -> Result<(), AllocError>
    ensures { IfOk result (λ u. serial.new.items ≡ serial.old.items ++ byte_of byte) }
{
    match byte {
        Some(byte) => {
            serial.push(byte)?;
            Ok(())
        }
        None => Ok(()),
    }
}
