//! Instructions into words.
ghost use Rattle.std.specs.Prelude.{◌≡◌, ℕ, ◌↔◌, Ok, IsSome, unwrap_or};
ghost use Rattle.avr_table.specs.Decoded.{decoded};
ghost use Rattle.avr_table.specs.WellFormed.{IsWellFormed, IsSum, IsProduct, IsLogic, IsMove, IsJump, IsBits};
ghost use Rattle.avr_table.specs.Words.{words_of};
ghost use Rattle.avr_enc.specs.Words.{sum_word, product_word, logic_word, move_word, move_next, jump_word, jump_next, bits_word};

use crate::shapes::{
    at_pointer, branch, displaced, far, near, one_register, place_bit, register_bit, two_pairs,
    two_registers, upper_registers, wide_pair, with_constant, with_place,
};
use avr_table::{Bits, Instr, Jumps, Logic, Moves, Products, Sums};

/// The words of an instruction: the first, and the second of lds, sts, jmp and call.
///
/// The instruction has to be one that a word can say: each field in its range, and not undefined. Everything
/// that `decode` gives is one.
pub fn encode(instr: &Instr) -> (u16, Option<u16>)
    requires { IsWellFormed instr.now }
    // Whatever follows a single word, it is decoded to the instruction; the first of two is before the second.
    ensures decodes { (next : ℕ) → decoded result.0 (unwrap_or result.1 next) ≡ Ok instr.now }
    ensures second { IsSome result.1 ↔ (words_of instr.now ≡ 2) }
{
    match *instr {
        Instr::Sums(sum) => (sum_word(sum), None),
        Instr::Products(product) => (product_word(product), None),
        Instr::Logic(logic) => (logic_word(logic), None),
        Instr::Moves(moves) => (move_word(moves), move_next(moves)),
        Instr::Jumps(jump) => (jump_word(jump), jump_next(jump)),
        Instr::Bits(bits) => (bits_word(bits), None),
    }
}

/// The second word of a move: the data address.
fn move_next(instr: Moves) -> Option<u16>
    ensures { result ≡ move_next instr }
{
    match instr {
        Moves::Lds { k, .. } | Moves::Sts { k, .. } => Some(k),
        _ => None,
    }
}

/// The second word of a jump: the 16 lower bits of its target.
fn jump_next(instr: Jumps) -> Option<u16>
    ensures { result ≡ jump_next instr }
{
    match instr {
        Jumps::Jmp { k } | Jumps::Call { k } => Some((k % 65536) as u16),
        _ => None,
    }
}

/// Sums, differences and comparisons.
fn sum_word(instr: Sums) -> u16
    requires { IsSum instr }
    ensures { result ≡ sum_word instr }
{
    match instr {
        Sums::Cpc { d, r } => two_registers(0x0400, d, r),
        Sums::Sbc { d, r } => two_registers(0x0800, d, r),
        Sums::Add { d, r } => two_registers(0x0C00, d, r),
        Sums::Cp { d, r } => two_registers(0x1400, d, r),
        Sums::Sub { d, r } => two_registers(0x1800, d, r),
        Sums::Adc { d, r } => two_registers(0x1C00, d, r),
        Sums::Cpi { d, k } => with_constant(0x3000, d, k),
        Sums::Sbci { d, k } => with_constant(0x4000, d, k),
        Sums::Subi { d, k } => with_constant(0x5000, d, k),
        Sums::Neg { d } => one_register(0x9401, d),
        Sums::Inc { d } => one_register(0x9403, d),
        Sums::Dec { d } => one_register(0x940A, d),
        Sums::Adiw { d, k } => wide_pair(0x9600, d, k),
        Sums::Sbiw { d, k } => wide_pair(0x9700, d, k),
    }
}

/// Products.
fn product_word(instr: Products) -> u16
    requires { IsProduct instr }
    ensures { result ≡ product_word instr }
{
    match instr {
        Products::Muls { d, r } => upper_registers(0x0200, d, r),
        Products::Mulsu { d, r } => upper_registers(0x0300, d, r),
        Products::Fmul { d, r } => upper_registers(0x0308, d, r),
        Products::Fmuls { d, r } => upper_registers(0x0380, d, r),
        Products::Fmulsu { d, r } => upper_registers(0x0388, d, r),
        Products::Mul { d, r } => two_registers(0x9C00, d, r),
    }
}

/// Logic and shifts.
fn logic_word(instr: Logic) -> u16
    requires { IsLogic instr }
    ensures { result ≡ logic_word instr }
{
    match instr {
        Logic::And { d, r } => two_registers(0x2000, d, r),
        Logic::Eor { d, r } => two_registers(0x2400, d, r),
        Logic::Or { d, r } => two_registers(0x2800, d, r),
        Logic::Ori { d, k } => with_constant(0x6000, d, k),
        Logic::Andi { d, k } => with_constant(0x7000, d, k),
        Logic::Com { d } => one_register(0x9400, d),
        Logic::Swap { d } => one_register(0x9402, d),
        Logic::Asr { d } => one_register(0x9405, d),
        Logic::Lsr { d } => one_register(0x9406, d),
        Logic::Ror { d } => one_register(0x9407, d),
    }
}

/// Moves.
fn move_word(instr: Moves) -> u16
    requires { IsMove instr }
    ensures { result ≡ move_word instr }
{
    match instr {
        Moves::Movw { d, r } => two_pairs(0x0100, d, r),
        Moves::Mov { d, r } => two_registers(0x2C00, d, r),
        Moves::LddZ { d, q } => displaced(0x8000, d, q),
        Moves::LddY { d, q } => displaced(0x8008, d, q),
        Moves::StdZ { d, q } => displaced(0x8200, d, q),
        Moves::StdY { d, q } => displaced(0x8208, d, q),
        Moves::Lds { d, .. } => one_register(0x9000, d),
        Moves::Ld { d, p } => at_pointer(0x9000, d, p),
        Moves::LpmZ { d } => one_register(0x9004, d),
        Moves::LpmZInc { d } => one_register(0x9005, d),
        Moves::Pop { d } => one_register(0x900F, d),
        Moves::Sts { d, .. } => one_register(0x9200, d),
        Moves::St { d, p } => at_pointer(0x9200, d, p),
        Moves::Push { d } => one_register(0x920F, d),
        Moves::Lpm => 0x95C8,
        Moves::In { d, a } => with_place(0xB000, d, a),
        Moves::Out { d, a } => with_place(0xB800, d, a),
        Moves::Ldi { d, k } => with_constant(0xE000, d, k),
    }
}

/// Jumps, calls, branches and skips.
fn jump_word(instr: Jumps) -> u16
    requires { IsJump instr }
    ensures { result ≡ jump_word instr }
{
    match instr {
        Jumps::Cpse { d, r } => two_registers(0x1000, d, r),
        Jumps::Ret => 0x9508,
        Jumps::Reti => 0x9518,
        Jumps::Ijmp => 0x9409,
        Jumps::Icall => 0x9509,
        Jumps::Jmp { k } => far(0x940C, k),
        Jumps::Call { k } => far(0x940E, k),
        Jumps::Sbic { a, b } => place_bit(0x9900, a, b),
        Jumps::Sbis { a, b } => place_bit(0x9B00, a, b),
        Jumps::Rjmp { k } => near(0xC000, k),
        Jumps::Rcall { k } => near(0xD000, k),
        Jumps::Brbs { s, k } => branch(0xF000, s, k),
        Jumps::Brbc { s, k } => branch(0xF400, s, k),
        Jumps::Sbrc { d, b } => register_bit(0xFC00, d, b),
        Jumps::Sbrs { d, b } => register_bit(0xFE00, d, b),
    }
}

/// Bits and control.
fn bits_word(instr: Bits) -> u16
    requires { IsBits instr }
    ensures { result ≡ bits_word instr }
{
    match instr {
        Bits::Nop => 0x0000,
        Bits::Bset { s } => one_register(0x9408, s),
        Bits::Bclr { s } => one_register(0x9488, s),
        Bits::Sleep => 0x9588,
        Bits::Break => 0x9598,
        Bits::Wdr => 0x95A8,
        Bits::Spm => 0x95E8,
        Bits::Cbi { a, b } => place_bit(0x9800, a, b),
        Bits::Sbi { a, b } => place_bit(0x9A00, a, b),
        Bits::Bld { d, b } => register_bit(0xF800, d, b),
        Bits::Bst { d, b } => register_bit(0xFA00, d, b),
    }
}
