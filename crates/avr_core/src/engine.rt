//! The engine: what each instruction does, once, over any data bus.
ghost use Rattle.std.specs.Prelude.{◌≡◌, IfOk};
ghost use Rattle.avr_core.specs.Ask.{Plays};
ghost use Rattle.avr_core.specs.Meaning.{executed};
ghost use Rattle.avr_core.specs.Ops.{instr_of};
ghost use Rattle.avr_core.specs.Registers.{in_flash};
ghost use Rattle.avr_table.specs.WellFormed.{IsWellFormed};
ghost use Rattle.flash.specs.Image.{word_at};

use crate::bus::DataBus;
use crate::cpu::{Core, X, Y, Z, above, in_flash};
use crate::op::Op;
use crate::went::Went;
use avr_alu::{
    adc, add, adiw, asr, bit_and, bit_eor, bit_or, com, dec, fmul, fmuls, fmulsu, inc, lsr, mul,
    muls, mulsu, neg, ror, sbc, sbiw, sub, swap,
};
use avr_sheet::{AvrStop, is_set, with_bit};
use flash::Image;

/// T and I of SREG.
const T: u8 = 6;

const I: u8 = 7;

impl Core {
    /// Runs an op at PC. One `match`, so that its dispatch is one jump; longer than other functions for that.
    #[inline(always)]
    pub(crate) fn perform<D: DataBus>(&mut self, flash: &Image, op: &Op, bus: &mut D) -> Went
        requires { IfOk (instr_of op.now) IsWellFormed }
        ensures { Plays D.did bus.old (executed flash.now (word_at flash.now (in_flash self.old.pc)) (instr_of op.now) self.old) (record { went = result; core = self.new }) bus.new }
    {
        match *op {
            Op::Sleep => self.rest(Went::Sleep),
            Op::Break => self.rest(Went::Break),
            Op::Sei => self.put_flag(I, true),
            Op::Reti => self.leave(with_bit(self.sreg, I, true), bus),
            Op::Cpc { d, r } => self.compare(sbc(self.reg(d), self.reg(r), self.sreg)),
            Op::Sbc { d, r } => self.take(d, sbc(self.reg(d), self.reg(r), self.sreg)),
            Op::Add { d, r } => self.take(d, add(self.reg(d), self.reg(r), self.sreg)),
            Op::Cp { d, r } => self.compare(sub(self.reg(d), self.reg(r), self.sreg)),
            Op::Sub { d, r } => self.take(d, sub(self.reg(d), self.reg(r), self.sreg)),
            Op::Adc { d, r } => self.take(d, adc(self.reg(d), self.reg(r), self.sreg)),
            Op::Cpi { d, k } => self.compare(sub(self.reg(d), k, self.sreg)),
            Op::Sbci { d, k } => self.take(d, sbc(self.reg(d), k, self.sreg)),
            Op::Subi { d, k } => self.take(d, sub(self.reg(d), k, self.sreg)),
            Op::Neg { d } => self.take(d, neg(self.reg(d), self.sreg)),
            Op::Inc { d } => self.take(d, inc(self.reg(d), self.sreg)),
            Op::Dec { d } => self.take(d, dec(self.reg(d), self.sreg)),
            Op::Adiw { d, k } => self.take_pair(d, adiw(self.pair(d), k, self.sreg)),
            Op::Sbiw { d, k } => self.take_pair(d, sbiw(self.pair(d), k, self.sreg)),
            Op::Muls { d, r } => self.take_pair(0, muls(self.reg(d), self.reg(r), self.sreg)),
            Op::Mulsu { d, r } => self.take_pair(0, mulsu(self.reg(d), self.reg(r), self.sreg)),
            Op::Fmul { d, r } => self.take_pair(0, fmul(self.reg(d), self.reg(r), self.sreg)),
            Op::Fmuls { d, r } => self.take_pair(0, fmuls(self.reg(d), self.reg(r), self.sreg)),
            Op::Fmulsu { d, r } => self.take_pair(0, fmulsu(self.reg(d), self.reg(r), self.sreg)),
            Op::Mul { d, r } => self.take_pair(0, mul(self.reg(d), self.reg(r), self.sreg)),
            Op::And { d, r } => self.take(d, bit_and(self.reg(d), self.reg(r), self.sreg)),
            Op::Eor { d, r } => self.take(d, bit_eor(self.reg(d), self.reg(r), self.sreg)),
            Op::Or { d, r } => self.take(d, bit_or(self.reg(d), self.reg(r), self.sreg)),
            Op::Ori { d, k } => self.take(d, bit_or(self.reg(d), k, self.sreg)),
            Op::Andi { d, k } => self.take(d, bit_and(self.reg(d), k, self.sreg)),
            Op::Com { d } => self.take(d, com(self.reg(d), self.sreg)),
            Op::Swap { d } => self.put(d, swap(self.reg(d)), 1),
            Op::Asr { d } => self.take(d, asr(self.reg(d), self.sreg)),
            Op::Lsr { d } => self.take(d, lsr(self.reg(d), self.sreg)),
            Op::Ror { d } => self.take(d, ror(self.reg(d), self.sreg)),
            Op::Movw { d, r } => self.move_pair(d, self.pair(r)),
            Op::Mov { d, r } => self.put(d, self.reg(r), 1),
            Op::Ldi { d, k } => self.put(d, k, 1),
            Op::LddZ { d, q } => self.load_into(2, 1, d, above(self.pair(Z), u16::from(q)), bus),
            Op::LddY { d, q } => self.load_into(2, 1, d, above(self.pair(Y), u16::from(q)), bus),
            Op::StdZ { d, q } => self.store_from(2, 1, d, above(self.pair(Z), u16::from(q)), bus),
            Op::StdY { d, q } => self.store_from(2, 1, d, above(self.pair(Y), u16::from(q)), bus),
            Op::Lds { d, k } => self.load_into(2, 2, d, k, bus),
            Op::Sts { d, k } => self.store_from(2, 2, d, k, bus),
            Op::LdZInc { d } => self.load_then_rise(d, Z, bus),
            Op::LdZDec { d } => self.fall_then_load(d, Z, bus),
            Op::LdYInc { d } => self.load_then_rise(d, Y, bus),
            Op::LdYDec { d } => self.fall_then_load(d, Y, bus),
            Op::LdX { d } => self.load_into(2, 1, d, self.pair(X), bus),
            Op::LdXInc { d } => self.load_then_rise(d, X, bus),
            Op::LdXDec { d } => self.fall_then_load(d, X, bus),
            Op::StZInc { r } => self.store_then_rise(r, Z, bus),
            Op::StZDec { r } => self.fall_then_store(r, Z, bus),
            Op::StYInc { r } => self.store_then_rise(r, Y, bus),
            Op::StYDec { r } => self.fall_then_store(r, Y, bus),
            Op::StX { r } => self.store_from(2, 1, r, self.pair(X), bus),
            Op::StXInc { r } => self.store_then_rise(r, X, bus),
            Op::StXDec { r } => self.fall_then_store(r, X, bus),
            Op::LpmZ { d } => self.put(d, self.flash_byte(flash), 3),
            Op::LpmZInc { d } => self.load_flash_and_rise(flash, d),
            Op::Pop { d } => self.pop(d, bus),
            Op::Push { d } => self.push(d, bus),
            Op::In { d, a } => self.load_into(1, 1, d, 32 + u16::from(a), bus),
            Op::Out { d, a } => self.store_from(1, 1, d, 32 + u16::from(a), bus),
            Op::Cpse { d, r } => self.skip(flash, self.reg(d) == self.reg(r)),
            Op::Ret => self.leave(self.sreg, bus),
            Op::Ijmp => self.jump(2, in_flash(self.pair(Z))),
            Op::Icall => self.enter(3, self.ahead(1), in_flash(self.pair(Z)), self.sreg, bus),
            Op::Jmp { k } => self.jump(3, in_flash(k)),
            Op::Call { k } => self.enter(4, self.ahead(2), in_flash(k), self.sreg, bus),
            Op::Sbic { a, b } => self.skip_by_io(flash, a, b, false, bus),
            Op::Sbis { a, b } => self.skip_by_io(flash, a, b, true, bus),
            Op::Rjmp { k } => self.jump(2, self.relative(k)),
            Op::Rcall { k } => self.enter(3, self.ahead(1), self.relative(k), self.sreg, bus),
            Op::Brbs { s, k } => self.branch(is_set(self.sreg, s), k),
            Op::Brbc { s, k } => self.branch(!is_set(self.sreg, s), k),
            Op::Sbrc { d, b } => self.skip(flash, !is_set(self.reg(d), b)),
            Op::Sbrs { d, b } => self.skip(flash, is_set(self.reg(d), b)),
            Op::Nop => self.on(1, 1),
            Op::Bset { s } => self.put_flag(s, true),
            Op::Bclr { s } => self.put_flag(s, false),
            Op::Spm => Went::Stop(AvrStop::SelfProgram { pc: self.pc }),
            Op::Cbi { a, b } => self.put_io_bit(a, b, false, bus),
            Op::Sbi { a, b } => self.put_io_bit(a, b, true, bus),
            Op::Bld { d, b } => self.put(d, with_bit(self.reg(d), b, is_set(self.sreg, T)), 1),
            Op::Bst { d, b } => self.put_flag(T, is_set(self.reg(d), b)),
            Op::Illegal => Went::Stop(AvrStop::Illegal {
                pc: self.pc,
                word: self.word(flash),
            }),
            Op::Undefined => Went::Stop(AvrStop::Undefined {
                pc: self.pc,
                word: self.word(flash),
            }),
        }
    }

    /// The word at PC.
    fn word(&self, flash: &Image) -> u16
        ensures { result ≡ word_at flash.now (in_flash self.now.pc) }
    {
        flash.word(in_flash(self.pc))
    }
}
