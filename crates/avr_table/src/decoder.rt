//! The decoder: a nest of cases on the bits of a word.
ghost use Rattle.std.specs.Prelude.{◌≡◌, ◌<◌, IfOk, IsTrue};
ghost use Rattle.avr_table.specs.Decoded.{is_own, checked, decoded};
ghost use Rattle.avr_table.specs.WellFormed.{IsWellFormed};
ghost use Rattle.avr_table.specs.Words.{words_of, words_at, fits_long};
ghost use Rattle.avr_table.specs.declared.instr.Instr.TheVariants as instrs;
ghost use Rattle.avr_table.specs.declared.instr.Moves.TheVariants as moves;
ghost use Rattle.avr_table.specs.Nest.{pointer_of, load_of, store_of, special_of, fractional_of, product_of, lowest_of, comparison_of, logic_of, with_constant_of, displaced_of, control_of, flag_or_control_of, indirect_of, one_register_of, far_of, wide_of, place_bit_of, input_or_output_of, relative_of, register_bit_of, branch_or_bit_of};

use crate::fault::DecodeFault;
use crate::fields::{
    bit, branch, constant, destination, displacement, flag, low_place, middle_destination,
    middle_source, near, pair_destination, pair_source, place, small_constant, source, target,
    upper_destination, upper_source, wide_pair,
};
use crate::instr::{Bits, Instr, Jumps, Logic, Moves, Pointer, Products, Sums};

/// The instruction that begins with `word`, by the instruction table; `next` is the word that follows it and
/// counts only where the instruction takes two words.
///
/// `Illegal` exactly where no row fits the word, `Undefined` exactly where the row that fits is an `ld`, `st`
/// or `lpm` with a pointer that changes and a register that is one of this pointer's own two.
pub fn decode(word: u16, next: u16) -> Result<Instr, DecodeFault>
    ensures table { result ≡ decoded word next }
    ensures fits { IfOk result IsWellFormed }
    ensures words { IfOk result (λ i. words_of i ≡ words_at word) }
{
    match word / 4096 {
        0 => lowest(word),
        1 => Ok(comparison(word)),
        2 => Ok(logic(word)),
        8 => Ok(displaced(word)),
        9 => special(word, next),
        10 => Ok(displaced(word)),
        11 => Ok(input_or_output(word)),
        12 => Ok(relative(word)),
        13 => Ok(relative(word)),
        15 => branch_or_bit(word),
        _ => Ok(with_constant(word)),
    }
}

/// The instruction that begins with this word takes a second one: the word fits lds, sts, jmp or call.
pub fn two_words(word: u16) -> bool
    ensures { result ≡ fits_long word }
{
    match word / 1024 {
        36 => word % 16 == 0,
        37 => word / 512 % 2 == 0 && word / 4 % 4 == 3,
        _ => false,
    }
}

// 0000 0011: the products of r16 to r23.
fn fractional(word: u16) -> Instr
    ensures is { result ≡ fractional_of word }
    ensures fits { IsWellFormed result }
{
    match word / 128 % 2 * 2 + word / 8 % 2 {
        0 => Instr::Products(Products::Mulsu {
            d: middle_destination(word),
            r: middle_source(word),
        }),
        1 => Instr::Products(Products::Fmul {
            d: middle_destination(word),
            r: middle_source(word),
        }),
        2 => Instr::Products(Products::Fmuls {
            d: middle_destination(word),
            r: middle_source(word),
        }),
        _ => Instr::Products(Products::Fmulsu {
            d: middle_destination(word),
            r: middle_source(word),
        }),
    }
}

// 0000 00: nop, movw and the products but mul.
fn product(word: u16) -> Result<Instr, DecodeFault>
    ensures is { result ≡ product_of word }
    ensures fits { IfOk result IsWellFormed }
{
    match word / 256 {
        1 => Ok(Instr::Moves(Moves::Movw {
            d: pair_destination(word),
            r: pair_source(word),
        })),
        2 => Ok(Instr::Products(Products::Muls {
            d: upper_destination(word),
            r: upper_source(word),
        })),
        3 => Ok(fractional(word)),
        _ => match word {
            0 => Ok(Instr::Bits(Bits::Nop)),
            _ => Err(DecodeFault::Illegal),
        },
    }
}

// 0000.
fn lowest(word: u16) -> Result<Instr, DecodeFault>
    ensures is { result ≡ lowest_of word }
    ensures fits { IfOk result IsWellFormed }
{
    match word / 1024 {
        1 => Ok(Instr::Sums(Sums::Cpc {
            d: destination(word),
            r: source(word),
        })),
        2 => Ok(Instr::Sums(Sums::Sbc {
            d: destination(word),
            r: source(word),
        })),
        3 => Ok(Instr::Sums(Sums::Add {
            d: destination(word),
            r: source(word),
        })),
        _ => product(word),
    }
}

// 0001: cpse, cp, sub, adc.
fn comparison(word: u16) -> Instr
    ensures is { result ≡ comparison_of word }
    ensures fits { IsWellFormed result }
{
    match word / 1024 % 4 {
        0 => Instr::Jumps(Jumps::Cpse {
            d: destination(word),
            r: source(word),
        }),
        1 => Instr::Sums(Sums::Cp {
            d: destination(word),
            r: source(word),
        }),
        2 => Instr::Sums(Sums::Sub {
            d: destination(word),
            r: source(word),
        }),
        _ => Instr::Sums(Sums::Adc {
            d: destination(word),
            r: source(word),
        }),
    }
}

// 0010: and, eor, or, mov.
fn logic(word: u16) -> Instr
    ensures is { result ≡ logic_of word }
    ensures fits { IsWellFormed result }
{
    match word / 1024 % 4 {
        0 => Instr::Logic(Logic::And {
            d: destination(word),
            r: source(word),
        }),
        1 => Instr::Logic(Logic::Eor {
            d: destination(word),
            r: source(word),
        }),
        2 => Instr::Logic(Logic::Or {
            d: destination(word),
            r: source(word),
        }),
        _ => Instr::Moves(Moves::Mov {
            d: destination(word),
            r: source(word),
        }),
    }
}

// 0011 to 0111 and 1110: a register from r16 on and a constant.
fn with_constant(word: u16) -> Instr
    ensures is { result ≡ with_constant_of word }
    ensures fits { IsWellFormed result }
{
    match word / 4096 {
        3 => Instr::Sums(Sums::Cpi {
            d: upper_destination(word),
            k: constant(word),
        }),
        4 => Instr::Sums(Sums::Sbci {
            d: upper_destination(word),
            k: constant(word),
        }),
        5 => Instr::Sums(Sums::Subi {
            d: upper_destination(word),
            k: constant(word),
        }),
        6 => Instr::Logic(Logic::Ori {
            d: upper_destination(word),
            k: constant(word),
        }),
        7 => Instr::Logic(Logic::Andi {
            d: upper_destination(word),
            k: constant(word),
        }),
        _ => Instr::Moves(Moves::Ldi {
            d: upper_destination(word),
            k: constant(word),
        }),
    }
}

// 10.0: ldd and std.
fn displaced(word: u16) -> Instr
    ensures is { result ≡ displaced_of word }
    ensures fits { IsWellFormed result }
{
    match word / 512 % 2 * 2 + word / 8 % 2 {
        0 => Instr::Moves(Moves::LddZ {
            d: destination(word),
            q: displacement(word),
        }),
        1 => Instr::Moves(Moves::LddY {
            d: destination(word),
            q: displacement(word),
        }),
        2 => Instr::Moves(Moves::StdZ {
            d: destination(word),
            q: displacement(word),
        }),
        _ => Instr::Moves(Moves::StdY {
            d: destination(word),
            q: displacement(word),
        }),
    }
}

// The register is one of the two that the pointer changes.
fn is_own(p: Pointer, d: u8) -> bool
    ensures { result ≡ is_own p d }
{
    match p {
        Pointer::ZInc | Pointer::ZDec => d / 2 == 15,
        Pointer::YInc | Pointer::YDec => d / 2 == 14,
        Pointer::X => false,
        Pointer::XInc | Pointer::XDec => d / 2 == 13,
    }
}

// `ld rd, p`, unless it is undefined.
fn load_at(d: u8, p: Pointer) -> Result<Instr, DecodeFault>
    requires { d < 32 }
    ensures is { result ≡ checked (instrs.Moves (moves.Ld d p)) }
    ensures fits { IfOk result IsWellFormed }
{
    if is_own(p, d) {
        Err(DecodeFault::Undefined)
    } else {
        Ok(Instr::Moves(Moves::Ld { d, p }))
    }
}

// `st p, rd`, unless it is undefined.
fn store_at(d: u8, p: Pointer) -> Result<Instr, DecodeFault>
    requires { d < 32 }
    ensures is { result ≡ checked (instrs.Moves (moves.St d p)) }
    ensures fits { IfOk result IsWellFormed }
{
    if is_own(p, d) {
        Err(DecodeFault::Undefined)
    } else {
        Ok(Instr::Moves(Moves::St { d, p }))
    }
}

// `lpm rd, Z+`, unless it is undefined.
fn load_flash_and_rise(d: u8) -> Result<Instr, DecodeFault>
    requires { d < 32 }
    ensures is { result ≡ checked (instrs.Moves (moves.LpmZInc d)) }
    ensures fits { IfOk result IsWellFormed }
{
    if d / 2 == 15 {
        Err(DecodeFault::Undefined)
    } else {
        Ok(Instr::Moves(Moves::LpmZInc { d }))
    }
}

// The pointer of a load or store, by its four lowest bits.
fn pointer(word: u16) -> Result<Pointer, DecodeFault>
    ensures { result ≡ pointer_of word }
{
    match word % 16 {
        1 => Ok(Pointer::ZInc),
        2 => Ok(Pointer::ZDec),
        9 => Ok(Pointer::YInc),
        10 => Ok(Pointer::YDec),
        12 => Ok(Pointer::X),
        13 => Ok(Pointer::XInc),
        14 => Ok(Pointer::XDec),
        _ => Err(DecodeFault::Illegal),
    }
}

// 1001 000: lds, ld, lpm, pop.
fn load(word: u16, next: u16) -> Result<Instr, DecodeFault>
    ensures is { result ≡ load_of word next }
    ensures fits { IfOk result IsWellFormed }
{
    let d = destination(word);
    match word % 16 {
        0 => Ok(Instr::Moves(Moves::Lds { d, k: next })),
        4 => Ok(Instr::Moves(Moves::LpmZ { d })),
        5 => load_flash_and_rise(d),
        15 => Ok(Instr::Moves(Moves::Pop { d })),
        _ => load_at(d, pointer(word)?),
    }
}

// 1001 001: sts, st, push.
fn store(word: u16, next: u16) -> Result<Instr, DecodeFault>
    ensures is { result ≡ store_of word next }
    ensures fits { IfOk result IsWellFormed }
{
    let d = destination(word);
    match word % 16 {
        0 => Ok(Instr::Moves(Moves::Sts { d, k: next })),
        15 => Ok(Instr::Moves(Moves::Push { d })),
        _ => store_at(d, pointer(word)?),
    }
}

// 1001 0101 .... 1000: returns, sleep, break, wdr, lpm, spm.
fn control(word: u16) -> Result<Instr, DecodeFault>
    ensures is { result ≡ control_of word }
    ensures fits { IfOk result IsWellFormed }
{
    match word / 16 % 16 {
        0 => Ok(Instr::Jumps(Jumps::Ret)),
        1 => Ok(Instr::Jumps(Jumps::Reti)),
        8 => Ok(Instr::Bits(Bits::Sleep)),
        9 => Ok(Instr::Bits(Bits::Break)),
        10 => Ok(Instr::Bits(Bits::Wdr)),
        12 => Ok(Instr::Moves(Moves::Lpm)),
        14 => Ok(Instr::Bits(Bits::Spm)),
        _ => Err(DecodeFault::Illegal),
    }
}

// 1001 010. .... 1000: bset, bclr and the instructions without a field.
fn flag_or_control(word: u16) -> Result<Instr, DecodeFault>
    ensures is { result ≡ flag_or_control_of word }
    ensures fits { IfOk result IsWellFormed }
{
    match word / 128 % 4 {
        0 => Ok(Instr::Bits(Bits::Bset { s: flag(word) })),
        1 => Ok(Instr::Bits(Bits::Bclr { s: flag(word) })),
        _ => control(word),
    }
}

// 1001 010. .... 1001: ijmp, icall.
fn indirect(word: u16) -> Result<Instr, DecodeFault>
    ensures is { result ≡ indirect_of word }
    ensures fits { IfOk result IsWellFormed }
{
    match word / 16 % 32 {
        0 => Ok(Instr::Jumps(Jumps::Ijmp)),
        16 => Ok(Instr::Jumps(Jumps::Icall)),
        _ => Err(DecodeFault::Illegal),
    }
}

// 1001 010. .... 0000 to 1011.
fn one_register(word: u16) -> Result<Instr, DecodeFault>
    ensures is { result ≡ one_register_of word }
    ensures fits { IfOk result IsWellFormed }
{
    match word % 16 {
        0 => Ok(Instr::Logic(Logic::Com {
            d: destination(word),
        })),
        1 => Ok(Instr::Sums(Sums::Neg {
            d: destination(word),
        })),
        2 => Ok(Instr::Logic(Logic::Swap {
            d: destination(word),
        })),
        3 => Ok(Instr::Sums(Sums::Inc {
            d: destination(word),
        })),
        5 => Ok(Instr::Logic(Logic::Asr {
            d: destination(word),
        })),
        6 => Ok(Instr::Logic(Logic::Lsr {
            d: destination(word),
        })),
        7 => Ok(Instr::Logic(Logic::Ror {
            d: destination(word),
        })),
        8 => flag_or_control(word),
        9 => indirect(word),
        10 => Ok(Instr::Sums(Sums::Dec {
            d: destination(word),
        })),
        _ => Err(DecodeFault::Illegal),
    }
}

// 1001 010. .... 11..: jmp, call.
fn far(word: u16, next: u16) -> Instr
    ensures is { result ≡ far_of word next }
    ensures fits { IsWellFormed result }
{
    match word / 2 % 2 {
        0 => Instr::Jumps(Jumps::Jmp {
            k: target(word, next),
        }),
        _ => Instr::Jumps(Jumps::Call {
            k: target(word, next),
        }),
    }
}

// 1001 011: adiw, sbiw.
fn wide(word: u16) -> Instr
    ensures is { result ≡ wide_of word }
    ensures fits { IsWellFormed result }
{
    match word / 256 % 2 {
        0 => Instr::Sums(Sums::Adiw {
            d: wide_pair(word),
            k: small_constant(word),
        }),
        _ => Instr::Sums(Sums::Sbiw {
            d: wide_pair(word),
            k: small_constant(word),
        }),
    }
}

// 1001 10: bits of the I/O places 0 to 31.
fn place_bit(word: u16) -> Instr
    ensures is { result ≡ place_bit_of word }
    ensures fits { IsWellFormed result }
{
    match word / 256 % 4 {
        0 => Instr::Bits(Bits::Cbi {
            a: low_place(word),
            b: bit(word),
        }),
        1 => Instr::Jumps(Jumps::Sbic {
            a: low_place(word),
            b: bit(word),
        }),
        2 => Instr::Bits(Bits::Sbi {
            a: low_place(word),
            b: bit(word),
        }),
        _ => Instr::Jumps(Jumps::Sbis {
            a: low_place(word),
            b: bit(word),
        }),
    }
}

// 1001.
fn special(word: u16, next: u16) -> Result<Instr, DecodeFault>
    ensures is { result ≡ special_of word next }
    ensures fits { IfOk result IsWellFormed }
{
    match word / 512 % 8 {
        0 => load(word, next),
        1 => store(word, next),
        2 => match word / 4 % 4 {
            3 => Ok(far(word, next)),
            _ => one_register(word),
        },
        3 => Ok(wide(word)),
        4 | 5 => Ok(place_bit(word)),
        _ => Ok(Instr::Products(Products::Mul {
            d: destination(word),
            r: source(word),
        })),
    }
}

// 1011: in, out.
fn input_or_output(word: u16) -> Instr
    ensures is { result ≡ input_or_output_of word }
    ensures fits { IsWellFormed result }
{
    match word / 2048 % 2 {
        0 => Instr::Moves(Moves::In {
            d: destination(word),
            a: place(word),
        }),
        _ => Instr::Moves(Moves::Out {
            d: destination(word),
            a: place(word),
        }),
    }
}

// 1100 and 1101: rjmp, rcall.
fn relative(word: u16) -> Instr
    ensures is { result ≡ relative_of word }
    ensures fits { IsWellFormed result }
{
    match word / 4096 % 2 {
        0 => Instr::Jumps(Jumps::Rjmp { k: near(word) }),
        _ => Instr::Jumps(Jumps::Rcall { k: near(word) }),
    }
}

// 1111 1... .... 0...: bits of a register.
fn register_bit(word: u16) -> Instr
    ensures is { result ≡ register_bit_of word }
    ensures fits { IsWellFormed result }
{
    match word / 512 % 4 {
        0 => Instr::Bits(Bits::Bld {
            d: destination(word),
            b: bit(word),
        }),
        1 => Instr::Bits(Bits::Bst {
            d: destination(word),
            b: bit(word),
        }),
        2 => Instr::Jumps(Jumps::Sbrc {
            d: destination(word),
            b: bit(word),
        }),
        _ => Instr::Jumps(Jumps::Sbrs {
            d: destination(word),
            b: bit(word),
        }),
    }
}

// 1111: branches, and bits of a register.
fn branch_or_bit(word: u16) -> Result<Instr, DecodeFault>
    ensures is { result ≡ branch_or_bit_of word }
    ensures fits { IfOk result IsWellFormed }
{
    match word / 1024 % 4 {
        0 => Ok(Instr::Jumps(Jumps::Brbs {
            s: bit(word),
            k: branch(word),
        })),
        1 => Ok(Instr::Jumps(Jumps::Brbc {
            s: bit(word),
            k: branch(word),
        })),
        _ => match word / 8 % 2 {
            0 => Ok(register_bit(word)),
            _ => Err(DecodeFault::Illegal),
        },
    }
}
