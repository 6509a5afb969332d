//! What is said on standard error behind a refusal, beside its line on standard output.

use board_hints::{board_hint, image_hint};
use board_quick::end::{EndKind, Refusal};
use board_quick::reading::read_operand;
use std::alloc::Global;
use wz_base::Files;

/// The line of words that are no written form.
const USAGE_HINT: &str = "these words are no command; `wz_board --help` prints the forms";

/// What a file with a fault looks like: it is read once more. Operand 1 is the first one.
fn file_hint<F: Files>(
    alloc: Global,
    words: &[String],
    files: &mut F,
    refusal: Refusal,
) -> Option<String> {
    let operand = match refusal {
        Refusal::Hex(_) => 1,
        _ => 2,
    };
    let name = words.get(operand)?;
    let text = read_operand(alloc, files, name.as_str()).ok()?;
    match refusal {
        Refusal::Hex(fault) => image_hint(alloc, &text, fault).ok(),
        Refusal::Board(fault) => board_hint(alloc, &text, fault).ok(),
        _ => None,
    }
}

/// The hint to a command that ended so, without its line's end, if there is one; none where memory runs out.
pub fn hint<F: Files>(
    alloc: Global,
    words: &[String],
    files: &mut F,
    end: EndKind,
) -> Option<String> {
    match end {
        EndKind::Refused(Refusal::Usage) => String::from_str(alloc, USAGE_HINT).ok(),
        EndKind::Refused(refusal) => file_hint(alloc, words, files, refusal),
        _ => None,
    }
}
