//! The listing of a flash image.
ghost use Rattle.std.specs.Prelude.{◌≡◌, ◌+◌, ◌<◌, ◌≤◌, ◌%◌, [], ◌++◌, length, IsErr, OnErr, OnOk};
ghost use Rattle.wz_base.specs.Lines.{Gathers};
ghost use Rattle.wz_base.specs.Outside.{RisesOnly};
ghost use Rattle.wz_base.specs.Whole.{Appends, AppendsFront};
ghost use Rattle.wz_base.specs.declared.lines.TheConstants.{PIECE_ROOM};
ghost use Rattle.board_text.specs.Answers.{digit};
ghost use Rattle.board_list.specs.Listing.{entry_text, flash_word, head_text, listing, long_head, short_head, said_at, tail_text, used, words_said};

use avr_enc::line_of;
use avr_table::{DecodeFault, Instr, decode};
use board_text::answers::digit;
use flash::Image;
use wz_base::{LineBuffer, Sink, WriteError};

/// How many words flash has.
const WORDS: u16 = 16384;

/// The most bytes of a line's head: that of two words.
const HEAD_ROOM: usize = 16;

/// The most bytes of a line: its head, an instruction's text and the line end.
const LINE_ROOM: usize = 49;

/// The word at a place of flash; past the end it is FFFF.
fn flash_word(image: &Image, at: u16) -> u16
    ensures { result ≡ flash_word image.now at }
{
    if at < WORDS { image.word(at) } else { 0xFFFF }
}

/// The number of words up to the last one other than FFFF.
fn used(image: &Image) -> u16
    ensures is { result ≡ used image.now }
    ensures within { result ≤ WORDS }
{
    let mut used = WORDS;
    while used > 0 {
        if image.word(used - 1) != 0xFFFF {
            return used;
        }
        used -= 1;
    }
    0
}

/// What the word at a place says.
#[tactic(auto, unfolding(crate::specs::Listing::said_at))]
fn said_at(image: &Image, at: u16) -> Result<Instr, DecodeFault>
    requires { at < WORDS }
    ensures { result ≡ said_at image.now at }
{
    decode(flash_word(image, at), flash_word(image, at + 1))
}

/// How many words a line takes.
fn words_said(said: &Result<Instr, DecodeFault>) -> u16
    ensures is { result ≡ words_said said.now }
    ensures some { 1 ≤ result }
    ensures few { result ≤ 2 }
{
    match said {
        Ok(instr) => u16::from(instr.words()),
        Err(_) => 1,
    }
}

/// The digit of the lowest four bits.
fn nibble(n: u16) -> u8
    ensures { result ≡ digit (n % 16) }
{
    digit((n % 16) as u8)
}

/// The head of a line with one word.
fn short_head(at: u16, word: u16) -> [u8; 11]
    ensures { result ≡ short_head at word }
{
    [
        nibble(at / 4096),
        nibble(at / 256),
        nibble(at / 16),
        nibble(at),
        b':',
        b' ',
        nibble(word / 4096),
        nibble(word / 256),
        nibble(word / 16),
        nibble(word),
        b' ',
    ]
}

/// The head of a line with two words.
fn long_head(at: u16, word: u16, next: u16) -> [u8; 16]
    ensures { result ≡ long_head at word next }
{
    [
        nibble(at / 4096),
        nibble(at / 256),
        nibble(at / 16),
        nibble(at),
        b':',
        b' ',
        nibble(word / 4096),
        nibble(word / 256),
        nibble(word / 16),
        nibble(word),
        b' ',
        nibble(next / 4096),
        nibble(next / 256),
        nibble(next / 16),
        nibble(next),
        b' ',
    ]
}

/// Adds the head of a line: the number of its word, and its word or words.
fn push_head(image: &Image, at: u16, words: u16, lines: &mut LineBuffer)
    requires place { at < WORDS }
    requires room { length lines.old + HEAD_ROOM ≤ PIECE_ROOM }
    ensures is { lines.new ≡ lines.old ++ head_text image.now at words }
    ensures short { length lines.new ≤ length lines.old + HEAD_ROOM }
{
    let word = flash_word(image, at);
    if words == 2 {
        let head = long_head(at, word, flash_word(image, at + 1));
        lines.push(&head);
    } else {
        let head = short_head(at, word);
        lines.push(&head);
    }
}

/// Adds the rest of a line.
fn push_tail(said: &Result<Instr, DecodeFault>, lines: &mut LineBuffer)
    requires { length lines.old + LINE_ROOM ≤ PIECE_ROOM + HEAD_ROOM }
    ensures { lines.new ≡ lines.old ++ tail_text said.now }
{
    match said {
        Ok(instr) => {
            let text = line_of(instr);
            lines.push(text.as_bytes());
            lines.push(b"\n");
        }
        Err(_) => lines.push(b".word\n"),
    }
}

/// Adds the line at a place. What waits is written first where the longest line might not fit after it.
fn write_entry<K: Sink>(
    image: &Image,
    at: u16,
    said: &Result<Instr, DecodeFault>,
    lines: &mut LineBuffer,
    out: &mut K,
) -> Result<(), WriteError>
    requires { at < WORDS }
    ensures ok { OnOk result (Gathers lines.old (entry_text image.now at said.now) lines.new (K.written out.old) (K.written out.new)) }
    ensures err { OnErr result (AppendsFront (K.written out.old) lines.old (K.written out.new)) }
    ensures faults { RisesOnly (IsErr result) (K.faults out.old) (K.faults out.new) }
{
    lines.make_room(LINE_ROOM, out)?;
    push_head(image, at, words_said(said), lines);
    push_tail(said, lines);
    Ok(())
}

/// Writes the listing of an image: a line for each instruction, from word 0 to the last word other than FFFF. The lines are
/// gathered in the buffer, and written in pieces of whole lines.
///
/// # Errors
///
/// `WriteFault` only where the sink's count of faults rose. A prefix of the listing was then written.
pub fn list<K: Sink>(image: &Image, lines: &mut LineBuffer, out: &mut K) -> Result<(), WriteError>
    requires { lines.old ≡ [] }
    ensures ok { OnOk result (Appends (K.written out.old) (listing image.now) (K.written out.new)) }
    ensures err { OnErr result (AppendsFront (K.written out.old) (listing image.now) (K.written out.new)) }
    ensures faults { RisesOnly (IsErr result) (K.faults out.old) (K.faults out.new) }
{
    let used = used(image);
    let mut at = 0;
    while at < used {
        let said = said_at(image, at);
        match write_entry(image, at, &said, lines, out) {
            Ok(()) => {}
            Err(fault) => return Err(fault),
        }
        at += words_said(&said);
    }
    lines.flush(out)
}
