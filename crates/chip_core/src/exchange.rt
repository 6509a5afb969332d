//! What a byte of the bus does where it stands.
ghost use Rattle.std.specs.Prelude.{◌≡◌, true, false};
ghost use Rattle.chip_sheet.specs.declared.block.Block.TheVariants.{Reserved};
ghost use Rattle.chip_sheet.specs.Blocks.{block_of};
ghost use Rattle.chip_sheet.specs.Frames.{access_in};
ghost use Rattle.spi_frame.specs.Framer.{HasBlock};
ghost use Rattle.chip_core.specs.Accesses.{IsWithin};

use chip_sheet::phase::{Access, Phase};

/// The access that a byte makes at a phase.
pub fn access_in(phase: Phase, v: u8) -> Access
    requires { HasBlock phase }
    ensures access { result ≡ access_in phase v }
    ensures within { IsWithin result }
{
    match phase {
        Phase::Body {
            block,
            addr,
            write: true,
        } => Access::Write {
            block,
            addr,
            value: v,
        },
        Phase::Body {
            block,
            addr,
            write: false,
        } => Access::Read { block, addr },
        Phase::Idle | Phase::Address | Phase::Control => Access::NoAccess,
    }
}

/// Whether these block select bits are reserved.
pub fn is_reserved(block: u8) -> bool
    ensures yes { result ≡ true → block_of block ≡ Reserved }
    ensures other { result ≡ false → block_of block ≡ Reserved → ⊥ }
{
    if block == 0 {
        return false;
    }
    block % 4 == 0
}
