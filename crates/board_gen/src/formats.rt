//! Texts looked through for the first line of which nothing is read. Nothing is kept of their lines.
ghost use Rattle.std.specs.Prelude.{◌≡◌, ◌<◌, ◌+◌, ◌^◌, ◌∷◌, [], ℕ, List, Option, OnOk, IfOk, IfErr, IfSome, MatchOption, length};
ghost use Rattle.board_gen.specs.EachLine.{read_from, EachRead, Tells};
ghost use Rattle.board_gen.specs.Views.{Errs};

use crate::fault::{ReadError, ScriptFault, ScriptKind};
use std::alloc::{AllocError, Global};

/// A format of lines: how a text is cut into them, and of which of them something is read.
pub trait LineFormat {
    /// What is read of a line.
    ghost Found: { Type 0 };

    /// The lines of a text.
    ghost lines: { List ℕ → List (List ℕ) };

    /// What is read of a line, if something is.
    ghost read: { List ℕ → Option Found };

    /// The first line of a text, and the text behind it; `None` where it has none.
    fn first_line(text: &[u8]) -> Option<(&[u8], &[u8])>
        ensures lines { MatchOption result (lines text.now ≡ []) (λ p. lines text.now ≡ p.0.now ∷ lines p.1.now) }
        ensures shorter { IfSome result (λ p. length p.1.now < length text.now) };

    /// Whether something is read of a line.
    ///
    /// # Errors
    ///
    /// Want of memory alone.
    fn is_read(alloc: Global, line: &[u8]) -> Result<bool, AllocError>
        ensures { IfOk result (λ is. Tells is (read line.now)) };
}

/// Looks for the first line of which nothing is read. The first of all has this number.
///
/// # Errors
///
/// `BadToken` in that line, and want of memory.
pub fn check_lines<F: LineFormat>(alloc: Global, text: &[u8], number: u32) -> Result<(), ReadError>
    requires { number + length text.now < 2 ^ 32 }
    ensures ok { OnOk result (EachRead F.read (F.lines text.now)) }
    ensures err { IfErr result (λ e. Errs e (read_from F.read number (F.lines text.now))) }
{
    let mut rest = text;
    let mut line_number = number;
    while let Some((line, after)) = F::first_line(rest) {
        if !F::is_read(alloc, line)? {
            return Err(ReadError::Fault(ScriptFault {
                line: line_number,
                kind: ScriptKind::BadToken,
            }));
        }
        rest = after;
        line_number += 1;
    }
    Ok(())
}
