//! One line of text on the stack.
ghost use Rattle.std.specs.Prelude.{◌≡◌, ◌+◌, ◌<◌, ◌≤◌, List, ℕ, [], ◌∷◌, ◌++◌, length, take};
ghost use Rattle.std.specs.Fmt.{decimal};
ghost use Rattle.avr_enc.specs.Text.{hex_digit, hex_byte, relative, pointer};
ghost use Rattle.avr_enc.specs.Syntax.{operand_text, syntax_text};

use crate::operand::{Operand, Operands};
use crate::syntax::Syntax;
use avr_table::Pointer;
use std::marker::Model;

/// The most bytes of an instruction's text.
pub const TEXT_ROOM: usize = 32;

/// A text of at most 32 bytes; contracts see the list of its bytes.
#[derive(Drop)]
pub struct Line {
    bytes: [u8; TEXT_ROOM],
    len: usize,
}

impl Model for Line {
    ghost use Rattle.std.specs.Prelude.{ℕ, List, ◌≤◌, take};

    ghost Value = { List ℕ };

    ghost view = { λ l. take l.len l.bytes };

    ghost invariant = { λ l. l.len ≤ 32 };
}

impl Line {
    pub(crate) fn new() -> Line
        ensures { result ≡ [] }
    {
        Line {
            bytes: [0; TEXT_ROOM],
            len: 0,
        }
    }

    /// Its bytes.
    pub fn as_bytes(&self) -> &[u8]
        ensures is { result.now ≡ self.now }
        ensures short { length result.now ≤ TEXT_ROOM }
    {
        &self.bytes[..self.len]
    }

    fn push(&mut self, byte: u8)
        requires { length self.old < 32 }
        ensures { self.new ≡ self.old ++ byte ∷ [] }
    {
        self.bytes[self.len] = byte;
        self.len += 1;
    }

    fn push_str(&mut self, text: &str)
        requires { length self.old + length text.now ≤ 32 }
        ensures { self.new ≡ self.old ++ text.now }
    {
        for byte in text.as_bytes() {
            self.push(*byte);
        }
    }

    /// A number in decimal, with no leading zeros.
    fn push_decimal(&mut self, n: u16)
        requires { length self.old + length (decimal n) ≤ 32 }
        ensures { self.new ≡ self.old ++ decimal n }
    {
        if n < 10 {
            self.push(b'0' + n as u8);
        } else {
            self.push_decimal(n / 10);
            self.push(b'0' + (n % 10) as u8);
        }
    }

    /// A number of at most five decimal digits.
    fn push_number(&mut self, n: u16)
        requires { length self.old + 5 ≤ 32 }
        ensures is { self.new ≡ self.old ++ decimal n }
        ensures short { length self.new ≤ length self.old + 5 }
    {
        self.push_decimal(n);
    }

    fn push_hex(&mut self, byte: u8)
        requires { length self.old + 2 ≤ 32 }
        ensures { self.new ≡ self.old ++ hex_byte byte }
    {
        self.push(hex_digit(byte / 16));
        self.push(hex_digit(byte % 16));
    }

    fn push_relative(&mut self, k: i16)
        requires { length self.old + 6 ≤ 32 }
        ensures is { self.new ≡ self.old ++ relative k }
        ensures short { length self.new ≤ length self.old + 6 }
    {
        if k < 0 {
            self.push(b'-');
        } else {
            self.push(b'+');
        }
        self.push_number(k.unsigned_abs());
    }

    fn push_operand(&mut self, operand: Operand)
        requires { length self.old + 8 ≤ 32 }
        ensures is { self.new ≡ self.old ++ operand_text operand }
        ensures short { length self.new ≤ length self.old + 8 }
    {
        match operand {
            Operand::Register(d) => {
                self.push_str("r");
                self.push_number(u16::from(d));
            }
            Operand::Constant(k) => {
                self.push_str("0x");
                self.push_hex(k);
            }
            Operand::Number(n) => self.push_number(u16::from(n)),
            Operand::Address(k) => {
                self.push_str("0x");
                self.push_hex((k / 256) as u8);
                self.push_hex((k % 256) as u8);
            }
            Operand::Target(k) => {
                self.push_str("0x");
                self.push_hex((k / 65536 % 256) as u8);
                self.push_hex((k / 256 % 256) as u8);
                self.push_hex((k % 256) as u8);
            }
            Operand::Relative(k) => self.push_relative(k),
            Operand::Pointer(p) => self.push_str(pointer_name(p)),
            Operand::Z => self.push_str("Z"),
            Operand::ZDisplaced(q) => {
                self.push_str("Z+");
                self.push_number(u16::from(q));
            }
            Operand::YDisplaced(q) => {
                self.push_str("Y+");
                self.push_number(u16::from(q));
            }
        }
    }

    /// The line of a mnemonic with its operands.
    pub(crate) fn of(syntax: &Syntax) -> Line
        requires { length syntax.now.name.now ≤ 6 }
        ensures { result ≡ syntax_text syntax.now.name.now syntax.now.operands }
    {
        let mut line = Line::new();
        line.push_str(syntax.name);
        match syntax.operands {
            Operands::Bare => {}
            Operands::One(first) => {
                line.push_str(" ");
                line.push_operand(first);
            }
            Operands::Two(first, second) => {
                line.push_str(" ");
                line.push_operand(first);
                line.push_str(", ");
                line.push_operand(second);
            }
        }
        line
    }
}

fn hex_digit(n: u8) -> u8
    requires { n < 16 }
    ensures { result ≡ hex_digit n }
{
    if n < 10 { b'0' + n } else { b'A' + (n - 10) }
}

fn pointer_name(p: Pointer) -> &'static str
    ensures is { result.now ≡ pointer p }
    ensures short { length result.now ≤ 2 }
{
    match p {
        Pointer::ZInc => "Z+",
        Pointer::ZDec => "-Z",
        Pointer::YInc => "Y+",
        Pointer::YDec => "-Y",
        Pointer::X => "X",
        Pointer::XInc => "X+",
        Pointer::XDec => "-X",
    }
}
