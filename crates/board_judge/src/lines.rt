//! Traces cut into lines, one after another, without memory.

ghost use Rattle.std.specs.Prelude.{◌≡◌, ◌==◌, ◌<◌, ◌≤◌, ◌+◌, ◌∷◌, [], length, IfSome, MatchOption};
ghost use Rattle.std.specs.List.{slice_split};
ghost use Rattle.board_judge.specs.Trace.{trace_lines};

use board_gen::cuts::without_return;
use board_read::cuts::cut;

// The line of a text without a line feed: none where nothing stands in it.
fn last_line(text: &[u8]) -> Option<&[u8]>
    requires { slice_split (λ b. b == 10) text.now ≡ text.now ∷ [] }
    ensures lines { MatchOption result (trace_lines text.now ≡ []) (λ line. trace_lines text.now ≡ line.now ∷ []) }
    ensures some { IfSome result (λ line. 0 < length line.now) }
    ensures within { IfSome result (λ line. length line.now ≤ length text.now) }
{
    if text.is_empty() { None } else { Some(text) }
}

/// The first line of a text, and the text behind it; `None` where it has none. An empty last part is no line, and only a line
/// that ends with a line feed loses its carriage return.
pub fn first_line(text: &[u8]) -> Option<(&[u8], &[u8])>
    ensures lines { MatchOption result (trace_lines text.now ≡ []) (λ p. trace_lines text.now ≡ p.0.now ∷ trace_lines p.1.now) }
    ensures shorter { IfSome result (λ p. length p.1.now < length text.now) }
    ensures within { IfSome result (λ p. length p.0.now ≤ length text.now) }
    // A byte stands between the line and what is left, where something is.
    ensures between { IfSome result (λ p. 0 < length p.1.now → length p.0.now + 1 + length p.1.now ≤ length text.now) }
{
    match cut(text, b'\n') {
        Some((part, rest)) => Some((without_return(part), rest)),
        None => match last_line(text) {
            Some(line) => Some((line, &text[text.len()..])),
            None => None,
        },
    }
}
