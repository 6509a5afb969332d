//! Flash with its instructions decoded.
ghost use Rattle.std.specs.Prelude.{◌≡◌, ◌<◌, IfOk};
ghost use Rattle.avr_core.specs.Code.{AreOps, said_at};
ghost use Rattle.avr_core.specs.Ops.{IsOp};

use crate::cpu::in_flash;
use crate::op::{Op, op_of};
use avr_table::decode;
use flash::Image;
use std::alloc::{AllocError, Global};
use std::marker::Model;

/// Words of flash.
const WORDS: u16 = 0x4000;

/// Flash with what stands at each word decoded beforehand; contracts see the list of its bytes.
#[derive(Drop)]
pub struct Code {
    image: Image,
    ops: Vec<Op>,
}

impl Model for Code {
    ghost use Rattle.std.specs.Prelude.{List, ℕ};
    ghost use Rattle.avr_core.specs.Code.{AreOps};

    ghost Value = { List ℕ };

    ghost view = { λ code. code.image };

    ghost invariant = { λ code. AreOps code.image code.ops.items };
}

/// The op at a word address, below 16,384.
#[tactic(auto, unfolding(crate::specs::Code::said_at))]
pub(crate) fn op_in(image: &Image, at: u16) -> Op
    requires { at < 16384 }
    ensures { IsOp result (said_at image.now at) }
{
    op_of(decode(image.word(at), image.word(in_flash(at + 1))))
}

/// The ops at all word addresses.
fn ops_of(alloc: Global, image: &Image) -> Result<Vec<Op>, AllocError>
    ensures { IfOk result (λ ops. AreOps image.now ops.items) }
{
    let mut ops = Vec::with_capacity(alloc, WORDS as usize)?;
    for at in 0..WORDS {
        ops.push(op_in(image, at))?;
    }
    Ok(ops)
}

impl Code {
    /// Decodes an image, once. The error says that no memory was left.
    pub fn new(alloc: Global, image: Image) -> Result<Self, AllocError>
        ensures { IfOk result (λ code. code ≡ image) }
    {
        let ops = ops_of(alloc, &image)?;
        Ok(Code { image, ops })
    }

    /// The image.
    #[inline(always)]
    pub(crate) fn image(&self) -> &Image
        ensures { result.now ≡ self.now }
    {
        &self.image
    }

    /// The op at a word address, below 16,384.
    #[inline(always)]
    pub(crate) fn op(&self, at: u16) -> &Op
        requires { at < 16384 }
        ensures { IsOp result.now (said_at self.now at) }
    {
        &self.ops[at as usize]
    }
}
