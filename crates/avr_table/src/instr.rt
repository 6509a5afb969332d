//! The instructions, one variant for each row of the instruction table.
/// The pointer of an `ld` or `st`, and what becomes of it (AVR Instruction Set Manual, LD and ST).
/// X is r27:r26, Y is r29:r28, Z is r31:r30.
#[derive(Clone, Copy)]
pub enum Pointer {
    /// `Z+`: at Z, which then rises by one.
    ZInc,
    /// `-Z`: Z falls by one, then at Z.
    ZDec,
    /// `Y+`: at Y, which then rises by one.
    YInc,
    /// `-Y`: Y falls by one, then at Y.
    YDec,
    /// `X`: at X.
    X,
    /// `X+`: at X, which then rises by one.
    XInc,
    /// `-X`: X falls by one, then at X.
    XDec,
}

/// Sums, differences and comparisons. `d` and `r` are register numbers, 0 to 31; with a constant `k`
/// (0 to 255) `d` is 16 to 31.
#[derive(Clone, Copy)]
pub enum Sums {
    /// `cpc rd, rr`: compares with carry.
    Cpc { d: u8, r: u8 },
    /// `sbc rd, rr`: subtracts with carry.
    Sbc { d: u8, r: u8 },
    /// `add rd, rr`: adds without carry.
    Add { d: u8, r: u8 },
    /// `cp rd, rr`: compares.
    Cp { d: u8, r: u8 },
    /// `sub rd, rr`: subtracts without carry.
    Sub { d: u8, r: u8 },
    /// `adc rd, rr`: adds with carry.
    Adc { d: u8, r: u8 },
    /// `cpi rd, k`: compares with a constant.
    Cpi { d: u8, k: u8 },
    /// `sbci rd, k`: subtracts a constant with carry.
    Sbci { d: u8, k: u8 },
    /// `subi rd, k`: subtracts a constant.
    Subi { d: u8, k: u8 },
    /// `neg rd`: two's complement.
    Neg { d: u8 },
    /// `inc rd`: increments.
    Inc { d: u8 },
    /// `dec rd`: decrements.
    Dec { d: u8 },
    /// `adiw rd, k`: adds `k` (0 to 63) to the pair `d` + 1 : `d`, with `d` one of 24, 26, 28, 30.
    Adiw { d: u8, k: u8 },
    /// `sbiw rd, k`: subtracts `k` (0 to 63) from the pair `d` + 1 : `d`, with `d` one of 24, 26, 28, 30.
    Sbiw { d: u8, k: u8 },
}

/// Products of two registers, put into r1:r0.
#[derive(Clone, Copy)]
pub enum Products {
    /// `muls rd, rr`: signed times signed; `d` and `r` are 16 to 31.
    Muls { d: u8, r: u8 },
    /// `mulsu rd, rr`: signed times unsigned; `d` and `r` are 16 to 23.
    Mulsu { d: u8, r: u8 },
    /// `fmul rd, rr`: fractional, unsigned; `d` and `r` are 16 to 23.
    Fmul { d: u8, r: u8 },
    /// `fmuls rd, rr`: fractional, signed; `d` and `r` are 16 to 23.
    Fmuls { d: u8, r: u8 },
    /// `fmulsu rd, rr`: fractional, signed times unsigned; `d` and `r` are 16 to 23.
    Fmulsu { d: u8, r: u8 },
    /// `mul rd, rr`: unsigned; `d` and `r` are 0 to 31.
    Mul { d: u8, r: u8 },
}

/// Logic and shifts. `d` and `r` are 0 to 31; with a constant `k` (0 to 255) `d` is 16 to 31.
#[derive(Clone, Copy)]
pub enum Logic {
    /// `and rd, rr`: logical and.
    And { d: u8, r: u8 },
    /// `eor rd, rr`: exclusive or.
    Eor { d: u8, r: u8 },
    /// `or rd, rr`: logical or.
    Or { d: u8, r: u8 },
    /// `ori rd, k`: logical or with a constant.
    Ori { d: u8, k: u8 },
    /// `andi rd, k`: logical and with a constant.
    Andi { d: u8, k: u8 },
    /// `com rd`: one's complement.
    Com { d: u8 },
    /// `swap rd`: exchanges the nibbles.
    Swap { d: u8 },
    /// `asr rd`: arithmetic shift right.
    Asr { d: u8 },
    /// `lsr rd`: logical shift right.
    Lsr { d: u8 },
    /// `ror rd`: rotates right through carry.
    Ror { d: u8 },
}

/// Moves between registers, data memory, flash and I/O. `d` and `r` are 0 to 31 where nothing else is said.
#[derive(Clone, Copy)]
pub enum Moves {
    /// `movw rd, rr`: copies the pair `r` + 1 : `r` to `d` + 1 : `d`; both are even.
    Movw { d: u8, r: u8 },
    /// `mov rd, rr`: copies a register.
    Mov { d: u8, r: u8 },
    /// `ldd rd, Z+q`: loads at Z + `q`, with `q` 0 to 63.
    LddZ { d: u8, q: u8 },
    /// `ldd rd, Y+q`: loads at Y + `q`, with `q` 0 to 63.
    LddY { d: u8, q: u8 },
    /// `std Z+q, rd`: stores at Z + `q`, with `q` 0 to 63.
    StdZ { d: u8, q: u8 },
    /// `std Y+q, rd`: stores at Y + `q`, with `q` 0 to 63.
    StdY { d: u8, q: u8 },
    /// `lds rd, k`: loads at the data address `k`, the second word.
    Lds { d: u8, k: u16 },
    /// `ld rd, p`: loads at a pointer.
    Ld { d: u8, p: Pointer },
    /// `lpm rd, Z`: loads the flash byte at Z.
    LpmZ { d: u8 },
    /// `lpm rd, Z+`: loads the flash byte at Z, which then rises by one.
    LpmZInc { d: u8 },
    /// `pop rd`: takes a byte from the stack.
    Pop { d: u8 },
    /// `sts k, rd`: stores at the data address `k`, the second word.
    Sts { d: u8, k: u16 },
    /// `st p, rd`: stores at a pointer.
    St { d: u8, p: Pointer },
    /// `push rd`: puts a byte onto the stack.
    Push { d: u8 },
    /// `lpm`: loads the flash byte at Z into r0.
    Lpm,
    /// `in rd, a`: reads the I/O place `a`, 0 to 63.
    In { d: u8, a: u8 },
    /// `out a, rd`: writes the I/O place `a`, 0 to 63.
    Out { d: u8, a: u8 },
    /// `ldi rd, k`: loads the constant `k` (0 to 255) into `d`, 16 to 31.
    Ldi { d: u8, k: u8 },
}

/// Jumps, calls, returns, branches and skips. A relative `k` counts words from the next instruction.
#[derive(Clone, Copy)]
pub enum Jumps {
    /// `cpse rd, rr`: skips the next instruction where both registers (0 to 31) are equal.
    Cpse { d: u8, r: u8 },
    /// `ret`: returns from a subroutine.
    Ret,
    /// `reti`: returns from an interrupt.
    Reti,
    /// `ijmp`: jumps to Z.
    Ijmp,
    /// `icall`: calls Z.
    Icall,
    /// `jmp k`: jumps to the word address `k` of 22 bits.
    Jmp { k: u32 },
    /// `call k`: calls the word address `k` of 22 bits.
    Call { k: u32 },
    /// `sbic a, b`: skips where bit `b` (0 to 7) of the I/O place `a` (0 to 31) is 0.
    Sbic { a: u8, b: u8 },
    /// `sbis a, b`: skips where bit `b` (0 to 7) of the I/O place `a` (0 to 31) is 1.
    Sbis { a: u8, b: u8 },
    /// `rjmp k`: jumps, with `k` from -2048 to 2047.
    Rjmp { k: i16 },
    /// `rcall k`: calls, with `k` from -2048 to 2047.
    Rcall { k: i16 },
    /// `brbs s, k`: jumps where bit `s` (0 to 7) of SREG is 1, with `k` from -64 to 63.
    Brbs { s: u8, k: i16 },
    /// `brbc s, k`: jumps where bit `s` (0 to 7) of SREG is 0, with `k` from -64 to 63.
    Brbc { s: u8, k: i16 },
    /// `sbrc rd, b`: skips where bit `b` (0 to 7) of the register `d` (0 to 31) is 0.
    Sbrc { d: u8, b: u8 },
    /// `sbrs rd, b`: skips where bit `b` (0 to 7) of the register `d` (0 to 31) is 1.
    Sbrs { d: u8, b: u8 },
}

/// Bits of SREG, of I/O places and of registers, and control of the microcontroller.
#[derive(Clone, Copy)]
pub enum Bits {
    /// `nop`: nothing.
    Nop,
    /// `bset s`: sets bit `s` (0 to 7) of SREG.
    Bset { s: u8 },
    /// `bclr s`: clears bit `s` (0 to 7) of SREG.
    Bclr { s: u8 },
    /// `sleep`: sleeps.
    Sleep,
    /// `break`: ends the run.
    Break,
    /// `wdr`: resets the watchdog.
    Wdr,
    /// `spm`: stores program memory.
    Spm,
    /// `cbi a, b`: clears bit `b` (0 to 7) of the I/O place `a` (0 to 31).
    Cbi { a: u8, b: u8 },
    /// `sbi a, b`: sets bit `b` (0 to 7) of the I/O place `a` (0 to 31).
    Sbi { a: u8, b: u8 },
    /// `bld rd, b`: copies T to bit `b` (0 to 7) of the register `d` (0 to 31).
    Bld { d: u8, b: u8 },
    /// `bst rd, b`: copies bit `b` (0 to 7) of the register `d` (0 to 31) to T.
    Bst { d: u8, b: u8 },
}

/// One instruction: a row of the table with its fields.
#[derive(Clone, Copy)]
pub enum Instr {
    /// A sum, difference or comparison.
    Sums(Sums),
    /// A product.
    Products(Products),
    /// Logic or a shift.
    Logic(Logic),
    /// A move.
    Moves(Moves),
    /// A jump, call, branch or skip.
    Jumps(Jumps),
    /// A bit, or control.
    Bits(Bits),
}

impl Instr {
    ghost use Rattle.std.specs.Prelude.{◌≡◌};
    ghost use Rattle.avr_table.specs.Words.{words_of};

    /// How many words of flash the instruction takes: 2 for lds, sts, jmp and call, else 1.
    pub fn words(&self) -> u8
        ensures { result ≡ words_of self.now }
    {
        match self {
            Instr::Moves(Moves::Lds { .. } | Moves::Sts { .. })
            | Instr::Jumps(Jumps::Jmp { .. } | Jumps::Call { .. }) => 2,
            _ => 1,
        }
    }
}
