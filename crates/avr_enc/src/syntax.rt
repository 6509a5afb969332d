//! The mnemonic and the operands of each instruction.
ghost use Rattle.std.specs.Prelude.{◌≡◌, ◌≤◌, length};
ghost use Rattle.avr_enc.specs.Text.{sum_text, product_text, logic_text, move_text, jump_text, bits_text, text_of};
ghost use Rattle.avr_enc.specs.Syntax.{syntax_text};

use crate::operand::{Operand, Operands};
use avr_table::{Bits, Instr, Jumps, Logic, Moves, Pointer, Products, Sums};

/// A mnemonic with its operands.
#[derive(Clone, Copy)]
pub(crate) struct Syntax {
    pub(crate) name: &'static str,
    pub(crate) operands: Operands,
}

pub(crate) fn syntax_of(instr: &Instr) -> Syntax
    ensures is { syntax_text result.name.now result.operands ≡ text_of instr.now }
    ensures short { length result.name.now ≤ 6 }
{
    match *instr {
        Instr::Sums(sum) => sum_syntax(sum),
        Instr::Products(product) => product_syntax(product),
        Instr::Logic(logic) => logic_syntax(logic),
        Instr::Moves(moves) => move_syntax(moves),
        Instr::Jumps(jump) => jump_syntax(jump),
        Instr::Bits(bits) => bits_syntax(bits),
    }
}

fn bare(name: &'static str) -> Syntax
    ensures name { result.name.now ≡ name.now }
    ensures operands { result.operands ≡ Operands.Bare }
{
    Syntax {
        name,
        operands: Operands::Bare,
    }
}

fn with_one(name: &'static str, first: Operand) -> Syntax
    ensures name { result.name.now ≡ name.now }
    ensures operands { result.operands ≡ Operands.One first }
{
    Syntax {
        name,
        operands: Operands::One(first),
    }
}

fn with_two(name: &'static str, first: Operand, second: Operand) -> Syntax
    ensures name { result.name.now ≡ name.now }
    ensures operands { result.operands ≡ Operands.Two first second }
{
    Syntax {
        name,
        operands: Operands::Two(first, second),
    }
}

/// Sums, differences and comparisons.
fn sum_syntax(instr: Sums) -> Syntax
    ensures is { syntax_text result.name.now result.operands ≡ sum_text instr }
    ensures short { length result.name.now ≤ 6 }
{
    match instr {
        Sums::Cpc { d, r } => with_two("cpc", Operand::Register(d), Operand::Register(r)),
        Sums::Sbc { d, r } => with_two("sbc", Operand::Register(d), Operand::Register(r)),
        Sums::Add { d, r } => with_two("add", Operand::Register(d), Operand::Register(r)),
        Sums::Cp { d, r } => with_two("cp", Operand::Register(d), Operand::Register(r)),
        Sums::Sub { d, r } => with_two("sub", Operand::Register(d), Operand::Register(r)),
        Sums::Adc { d, r } => with_two("adc", Operand::Register(d), Operand::Register(r)),
        Sums::Cpi { d, k } => with_two("cpi", Operand::Register(d), Operand::Constant(k)),
        Sums::Sbci { d, k } => with_two("sbci", Operand::Register(d), Operand::Constant(k)),
        Sums::Subi { d, k } => with_two("subi", Operand::Register(d), Operand::Constant(k)),
        Sums::Neg { d } => with_one("neg", Operand::Register(d)),
        Sums::Inc { d } => with_one("inc", Operand::Register(d)),
        Sums::Dec { d } => with_one("dec", Operand::Register(d)),
        Sums::Adiw { d, k } => with_two("adiw", Operand::Register(d), Operand::Constant(k)),
        Sums::Sbiw { d, k } => with_two("sbiw", Operand::Register(d), Operand::Constant(k)),
    }
}

/// Products.
fn product_syntax(instr: Products) -> Syntax
    ensures is { syntax_text result.name.now result.operands ≡ product_text instr }
    ensures short { length result.name.now ≤ 6 }
{
    match instr {
        Products::Muls { d, r } => with_two("muls", Operand::Register(d), Operand::Register(r)),
        Products::Mulsu { d, r } => with_two("mulsu", Operand::Register(d), Operand::Register(r)),
        Products::Fmul { d, r } => with_two("fmul", Operand::Register(d), Operand::Register(r)),
        Products::Fmuls { d, r } => with_two("fmuls", Operand::Register(d), Operand::Register(r)),
        Products::Fmulsu { d, r } => with_two("fmulsu", Operand::Register(d), Operand::Register(r)),
        Products::Mul { d, r } => with_two("mul", Operand::Register(d), Operand::Register(r)),
    }
}

/// Logic and shifts.
fn logic_syntax(instr: Logic) -> Syntax
    ensures is { syntax_text result.name.now result.operands ≡ logic_text instr }
    ensures short { length result.name.now ≤ 6 }
{
    match instr {
        Logic::And { d, r } => with_two("and", Operand::Register(d), Operand::Register(r)),
        Logic::Eor { d, r } => with_two("eor", Operand::Register(d), Operand::Register(r)),
        Logic::Or { d, r } => with_two("or", Operand::Register(d), Operand::Register(r)),
        Logic::Ori { d, k } => with_two("ori", Operand::Register(d), Operand::Constant(k)),
        Logic::Andi { d, k } => with_two("andi", Operand::Register(d), Operand::Constant(k)),
        Logic::Com { d } => with_one("com", Operand::Register(d)),
        Logic::Swap { d } => with_one("swap", Operand::Register(d)),
        Logic::Asr { d } => with_one("asr", Operand::Register(d)),
        Logic::Lsr { d } => with_one("lsr", Operand::Register(d)),
        Logic::Ror { d } => with_one("ror", Operand::Register(d)),
    }
}

/// Moves.
fn move_syntax(instr: Moves) -> Syntax
    ensures is { syntax_text result.name.now result.operands ≡ move_text instr }
    ensures short { length result.name.now ≤ 6 }
{
    match instr {
        Moves::Movw { d, r } => with_two("movw", Operand::Register(d), Operand::Register(r)),
        Moves::Mov { d, r } => with_two("mov", Operand::Register(d), Operand::Register(r)),
        Moves::LddZ { d, q } => with_two("ldd", Operand::Register(d), Operand::ZDisplaced(q)),
        Moves::LddY { d, q } => with_two("ldd", Operand::Register(d), Operand::YDisplaced(q)),
        Moves::StdZ { d, q } => with_two("std", Operand::ZDisplaced(q), Operand::Register(d)),
        Moves::StdY { d, q } => with_two("std", Operand::YDisplaced(q), Operand::Register(d)),
        Moves::Lds { d, k } => with_two("lds", Operand::Register(d), Operand::Address(k)),
        Moves::Ld { d, p } => with_two("ld", Operand::Register(d), Operand::Pointer(p)),
        Moves::LpmZ { d } => with_two("lpm", Operand::Register(d), Operand::Z),
        Moves::LpmZInc { d } => with_two(
            "lpm",
            Operand::Register(d),
            Operand::Pointer(Pointer::ZInc),
        ),
        Moves::Pop { d } => with_one("pop", Operand::Register(d)),
        Moves::Sts { d, k } => with_two("sts", Operand::Address(k), Operand::Register(d)),
        Moves::St { d, p } => with_two("st", Operand::Pointer(p), Operand::Register(d)),
        Moves::Push { d } => with_one("push", Operand::Register(d)),
        Moves::Lpm => bare("lpm"),
        Moves::In { d, a } => with_two("in", Operand::Register(d), Operand::Constant(a)),
        Moves::Out { d, a } => with_two("out", Operand::Constant(a), Operand::Register(d)),
        Moves::Ldi { d, k } => with_two("ldi", Operand::Register(d), Operand::Constant(k)),
    }
}

/// Jumps, calls, branches and skips.
fn jump_syntax(instr: Jumps) -> Syntax
    ensures is { syntax_text result.name.now result.operands ≡ jump_text instr }
    ensures short { length result.name.now ≤ 6 }
{
    match instr {
        Jumps::Cpse { d, r } => with_two("cpse", Operand::Register(d), Operand::Register(r)),
        Jumps::Ret => bare("ret"),
        Jumps::Reti => bare("reti"),
        Jumps::Ijmp => bare("ijmp"),
        Jumps::Icall => bare("icall"),
        Jumps::Jmp { k } => with_one("jmp", Operand::Target(k)),
        Jumps::Call { k } => with_one("call", Operand::Target(k)),
        Jumps::Sbic { a, b } => with_two("sbic", Operand::Constant(a), Operand::Number(b)),
        Jumps::Sbis { a, b } => with_two("sbis", Operand::Constant(a), Operand::Number(b)),
        Jumps::Rjmp { k } => with_one("rjmp", Operand::Relative(k)),
        Jumps::Rcall { k } => with_one("rcall", Operand::Relative(k)),
        Jumps::Brbs { s, k } => with_two("brbs", Operand::Number(s), Operand::Relative(k)),
        Jumps::Brbc { s, k } => with_two("brbc", Operand::Number(s), Operand::Relative(k)),
        Jumps::Sbrc { d, b } => with_two("sbrc", Operand::Register(d), Operand::Number(b)),
        Jumps::Sbrs { d, b } => with_two("sbrs", Operand::Register(d), Operand::Number(b)),
    }
}

/// Bits and control.
fn bits_syntax(instr: Bits) -> Syntax
    ensures is { syntax_text result.name.now result.operands ≡ bits_text instr }
    ensures short { length result.name.now ≤ 6 }
{
    match instr {
        Bits::Nop => bare("nop"),
        Bits::Bset { s } => with_one("bset", Operand::Number(s)),
        Bits::Bclr { s } => with_one("bclr", Operand::Number(s)),
        Bits::Sleep => bare("sleep"),
        Bits::Break => bare("break"),
        Bits::Wdr => bare("wdr"),
        Bits::Spm => bare("spm"),
        Bits::Cbi { a, b } => with_two("cbi", Operand::Constant(a), Operand::Number(b)),
        Bits::Sbi { a, b } => with_two("sbi", Operand::Constant(a), Operand::Number(b)),
        Bits::Bld { d, b } => with_two("bld", Operand::Register(d), Operand::Number(b)),
        Bits::Bst { d, b } => with_two("bst", Operand::Register(d), Operand::Number(b)),
    }
}
