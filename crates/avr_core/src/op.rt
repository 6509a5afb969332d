//! Instructions in the form in which a core runs them: flat, four bytes each.
ghost use Rattle.std.specs.Prelude.{◌≡◌, ◌<◌, IfOk, Ok};
ghost use Rattle.avr_table.specs.WellFormed.{IsWellFormed, IsSum, IsProduct, IsLogic, IsMove, IsJump, IsBits};
ghost use Rattle.avr_core.specs.Ops.{IsOp};

use avr_table::{Bits, DecodeFault, Instr, Jumps, Logic, Moves, Pointer, Products, Sums};

/// Words of flash: the upper bits of a longer program address do not count.
const WORDS: u32 = 0x4000;

/// What stands at a word address of flash, decoded. The fields are the instruction's; `Illegal` and `Undefined` are words that
/// cannot be run. The first four are those behind which more than the core has to be looked at, so `Core::run_plain` leaves them.
#[derive(Clone, Copy)]
pub enum Op {
    Sleep,
    Break,
    Sei,
    Reti,
    Cpc { d: u8, r: u8 },
    Sbc { d: u8, r: u8 },
    Add { d: u8, r: u8 },
    Cp { d: u8, r: u8 },
    Sub { d: u8, r: u8 },
    Adc { d: u8, r: u8 },
    Cpi { d: u8, k: u8 },
    Sbci { d: u8, k: u8 },
    Subi { d: u8, k: u8 },
    Neg { d: u8 },
    Inc { d: u8 },
    Dec { d: u8 },
    Adiw { d: u8, k: u8 },
    Sbiw { d: u8, k: u8 },
    Muls { d: u8, r: u8 },
    Mulsu { d: u8, r: u8 },
    Fmul { d: u8, r: u8 },
    Fmuls { d: u8, r: u8 },
    Fmulsu { d: u8, r: u8 },
    Mul { d: u8, r: u8 },
    And { d: u8, r: u8 },
    Eor { d: u8, r: u8 },
    Or { d: u8, r: u8 },
    Ori { d: u8, k: u8 },
    Andi { d: u8, k: u8 },
    Com { d: u8 },
    Swap { d: u8 },
    Asr { d: u8 },
    Lsr { d: u8 },
    Ror { d: u8 },
    Movw { d: u8, r: u8 },
    Mov { d: u8, r: u8 },
    Ldi { d: u8, k: u8 },
    LddZ { d: u8, q: u8 },
    LddY { d: u8, q: u8 },
    StdZ { d: u8, q: u8 },
    StdY { d: u8, q: u8 },
    Lds { d: u8, k: u16 },
    Sts { d: u8, k: u16 },
    LdZInc { d: u8 },
    LdZDec { d: u8 },
    LdYInc { d: u8 },
    LdYDec { d: u8 },
    LdX { d: u8 },
    LdXInc { d: u8 },
    LdXDec { d: u8 },
    StZInc { r: u8 },
    StZDec { r: u8 },
    StYInc { r: u8 },
    StYDec { r: u8 },
    StX { r: u8 },
    StXInc { r: u8 },
    StXDec { r: u8 },
    LpmZ { d: u8 },
    LpmZInc { d: u8 },
    Pop { d: u8 },
    Push { d: u8 },
    In { d: u8, a: u8 },
    Out { d: u8, a: u8 },
    Cpse { d: u8, r: u8 },
    Ret,
    Ijmp,
    Icall,
    Jmp { k: u16 },
    Call { k: u16 },
    Sbic { a: u8, b: u8 },
    Sbis { a: u8, b: u8 },
    Rjmp { k: i16 },
    Rcall { k: i16 },
    Brbs { s: u8, k: i16 },
    Brbc { s: u8, k: i16 },
    Sbrc { d: u8, b: u8 },
    Sbrs { d: u8, b: u8 },
    Nop,
    Bset { s: u8 },
    Bclr { s: u8 },
    Spm,
    Cbi { a: u8, b: u8 },
    Sbi { a: u8, b: u8 },
    Bld { d: u8, b: u8 },
    Bst { d: u8, b: u8 },
    Illegal,
    Undefined,
}

/// LD, by its pointer.
fn load_op(d: u8, p: Pointer) -> Op
    requires { IsMove (Moves.Ld d p) }
    ensures { IsOp result (Ok (Instr.Moves (Moves.Ld d p))) }
{
    match p {
        Pointer::ZInc => Op::LdZInc { d },
        Pointer::ZDec => Op::LdZDec { d },
        Pointer::YInc => Op::LdYInc { d },
        Pointer::YDec => Op::LdYDec { d },
        Pointer::X => Op::LdX { d },
        Pointer::XInc => Op::LdXInc { d },
        Pointer::XDec => Op::LdXDec { d },
    }
}

/// ST, by its pointer.
fn store_op(r: u8, p: Pointer) -> Op
    requires { IsMove (Moves.St r p) }
    ensures { IsOp result (Ok (Instr.Moves (Moves.St r p))) }
{
    match p {
        Pointer::ZInc => Op::StZInc { r },
        Pointer::ZDec => Op::StZDec { r },
        Pointer::YInc => Op::StYInc { r },
        Pointer::YDec => Op::StYDec { r },
        Pointer::X => Op::StX { r },
        Pointer::XInc => Op::StXInc { r },
        Pointer::XDec => Op::StXDec { r },
    }
}

/// BSET: that of bit 7 is SEI.
fn set_op(s: u8) -> Op
    requires { s < 8 }
    ensures { IsOp result (Ok (Instr.Bits (Bits.Bset s))) }
{
    if s == 7 { Op::Sei } else { Op::Bset { s } }
}

fn sums_op(i: Sums) -> Op
    requires { IsSum i }
    ensures { IsOp result (Ok (Instr.Sums i)) }
{
    match i {
        Sums::Cpc { d, r } => Op::Cpc { d, r },
        Sums::Sbc { d, r } => Op::Sbc { d, r },
        Sums::Add { d, r } => Op::Add { d, r },
        Sums::Cp { d, r } => Op::Cp { d, r },
        Sums::Sub { d, r } => Op::Sub { d, r },
        Sums::Adc { d, r } => Op::Adc { d, r },
        Sums::Cpi { d, k } => Op::Cpi { d, k },
        Sums::Sbci { d, k } => Op::Sbci { d, k },
        Sums::Subi { d, k } => Op::Subi { d, k },
        Sums::Neg { d } => Op::Neg { d },
        Sums::Inc { d } => Op::Inc { d },
        Sums::Dec { d } => Op::Dec { d },
        Sums::Adiw { d, k } => Op::Adiw { d, k },
        Sums::Sbiw { d, k } => Op::Sbiw { d, k },
    }
}

fn products_op(i: Products) -> Op
    requires { IsProduct i }
    ensures { IsOp result (Ok (Instr.Products i)) }
{
    match i {
        Products::Muls { d, r } => Op::Muls { d, r },
        Products::Mulsu { d, r } => Op::Mulsu { d, r },
        Products::Fmul { d, r } => Op::Fmul { d, r },
        Products::Fmuls { d, r } => Op::Fmuls { d, r },
        Products::Fmulsu { d, r } => Op::Fmulsu { d, r },
        Products::Mul { d, r } => Op::Mul { d, r },
    }
}

fn logic_op(i: Logic) -> Op
    requires { IsLogic i }
    ensures { IsOp result (Ok (Instr.Logic i)) }
{
    match i {
        Logic::And { d, r } => Op::And { d, r },
        Logic::Eor { d, r } => Op::Eor { d, r },
        Logic::Or { d, r } => Op::Or { d, r },
        Logic::Ori { d, k } => Op::Ori { d, k },
        Logic::Andi { d, k } => Op::Andi { d, k },
        Logic::Com { d } => Op::Com { d },
        Logic::Swap { d } => Op::Swap { d },
        Logic::Asr { d } => Op::Asr { d },
        Logic::Lsr { d } => Op::Lsr { d },
        Logic::Ror { d } => Op::Ror { d },
    }
}

fn moves_op(i: Moves) -> Op
    requires { IsMove i }
    ensures { IsOp result (Ok (Instr.Moves i)) }
{
    match i {
        Moves::Movw { d, r } => Op::Movw { d, r },
        Moves::Mov { d, r } => Op::Mov { d, r },
        Moves::Ldi { d, k } => Op::Ldi { d, k },
        Moves::LddZ { d, q } => Op::LddZ { d, q },
        Moves::LddY { d, q } => Op::LddY { d, q },
        Moves::StdZ { d, q } => Op::StdZ { d, q },
        Moves::StdY { d, q } => Op::StdY { d, q },
        Moves::Lds { d, k } => Op::Lds { d, k },
        Moves::Sts { d, k } => Op::Sts { d, k },
        Moves::LpmZ { d } => Op::LpmZ { d },
        Moves::LpmZInc { d } => Op::LpmZInc { d },
        Moves::Pop { d } => Op::Pop { d },
        Moves::Push { d } => Op::Push { d },
        Moves::In { d, a } => Op::In { d, a },
        Moves::Out { d, a } => Op::Out { d, a },
        Moves::Lpm => Op::LpmZ { d: 0 },
        Moves::Ld { d, p } => load_op(d, p),
        Moves::St { d, p } => store_op(d, p),
    }
}

fn jumps_op(i: Jumps) -> Op
    requires { IsJump i }
    ensures { IsOp result (Ok (Instr.Jumps i)) }
{
    match i {
        Jumps::Cpse { d, r } => Op::Cpse { d, r },
        Jumps::Ret => Op::Ret,
        Jumps::Reti => Op::Reti,
        Jumps::Ijmp => Op::Ijmp,
        Jumps::Icall => Op::Icall,
        Jumps::Sbic { a, b } => Op::Sbic { a, b },
        Jumps::Sbis { a, b } => Op::Sbis { a, b },
        Jumps::Rjmp { k } => Op::Rjmp { k },
        Jumps::Rcall { k } => Op::Rcall { k },
        Jumps::Brbs { s, k } => Op::Brbs { s, k },
        Jumps::Brbc { s, k } => Op::Brbc { s, k },
        Jumps::Sbrc { d, b } => Op::Sbrc { d, b },
        Jumps::Sbrs { d, b } => Op::Sbrs { d, b },
        Jumps::Jmp { k } => Op::Jmp {
            k: (k % WORDS) as u16,
        },
        Jumps::Call { k } => Op::Call {
            k: (k % WORDS) as u16,
        },
    }
}

fn bits_op(i: Bits) -> Op
    requires { IsBits i }
    ensures { IsOp result (Ok (Instr.Bits i)) }
{
    match i {
        Bits::Bclr { s } => Op::Bclr { s },
        Bits::Sleep => Op::Sleep,
        Bits::Break => Op::Break,
        Bits::Spm => Op::Spm,
        Bits::Cbi { a, b } => Op::Cbi { a, b },
        Bits::Sbi { a, b } => Op::Sbi { a, b },
        Bits::Bld { d, b } => Op::Bld { d, b },
        Bits::Bst { d, b } => Op::Bst { d, b },
        Bits::Nop | Bits::Wdr => Op::Nop,
        Bits::Bset { s } => set_op(s),
    }
}

/// The op of a word that was decoded so.
pub(crate) fn op_of(said: Result<Instr, DecodeFault>) -> Op
    requires { IfOk said IsWellFormed }
    ensures { IsOp result said }
{
    match said {
        Ok(Instr::Sums(i)) => sums_op(i),
        Ok(Instr::Products(i)) => products_op(i),
        Ok(Instr::Logic(i)) => logic_op(i),
        Ok(Instr::Moves(i)) => moves_op(i),
        Ok(Instr::Jumps(i)) => jumps_op(i),
        Ok(Instr::Bits(i)) => bits_op(i),
        Err(DecodeFault::Illegal) => Op::Illegal,
        Err(DecodeFault::Undefined) => Op::Undefined,
    }
}
