//! Scripts cut into lines and tokens, one after another, without memory.
ghost use Rattle.std.specs.Prelude.{◌≡◌, ◌==◌, ◌<◌, ◌≤◌, ◌+◌, ◌∷◌, [], length, IfSome, MatchOption};
ghost use Rattle.std.specs.List.{slice_split};
ghost use Rattle.std.specs.Str.Lines.{strip_carriage_return};
ghost use Rattle.board_gen.specs.Script.{uncommented, script_lines};
ghost use Rattle.board_gen.specs.Tokens.{tokens};

use board_read::cuts::{cut, place_of};

// A part without its comment.
fn uncommented(part: &[u8]) -> &[u8]
    ensures is { result.now ≡ uncommented part.now }
    ensures shorter { length result.now ≤ length part.now }
{
    match place_of(part, b'#') {
        Some(at) => &part[..at],
        None => part,
    }
}

/// A line without the carriage return at its end, if it has one.
pub fn without_return(line: &[u8]) -> &[u8]
    ensures is { result.now ≡ strip_carriage_return line.now }
    ensures shorter { length result.now ≤ length line.now }
{
    if line.last() == Some(&b'\r') {
        &line[..line.len() - 1]
    } else {
        line
    }
}

// The line of a text without a line feed: none where nothing stands in it but a comment.
fn last_line(text: &[u8]) -> Option<&[u8]>
    requires { slice_split (λ b. b == 10) text.now ≡ text.now ∷ [] }
    ensures lines { MatchOption result (script_lines text.now ≡ []) (λ line. script_lines text.now ≡ line.now ∷ []) }
    ensures some { IfSome result (λ line. 0 < length line.now) }
    ensures within { IfSome result (λ line. length line.now ≤ length text.now) }
{
    let line = uncommented(text);
    if line.is_empty() { None } else { Some(line) }
}

/// The first line of a script, without its comment, and the text behind it; `None` where it has none. An empty last part is no
/// line, and only a line that ends with a line feed loses its carriage return.
pub fn first_line(text: &[u8]) -> Option<(&[u8], &[u8])>
    ensures lines { MatchOption result (script_lines text.now ≡ []) (λ p. script_lines text.now ≡ p.0.now ∷ script_lines p.1.now) }
    ensures shorter { IfSome result (λ p. length p.1.now < length text.now) }
    ensures within { IfSome result (λ p. length p.0.now ≤ length text.now) }
    // A byte stands between the line and what is left, where something is.
    ensures between { IfSome result (λ p. 0 < length p.1.now → length p.0.now + 1 + length p.1.now ≤ length text.now) }
{
    match cut(text, b'\n') {
        Some((part, rest)) => Some((without_return(uncommented(part)), rest)),
        None => match last_line(text) {
            Some(line) => Some((line, &text[text.len()..])),
            None => None,
        },
    }
}

/// The first token of a line, and what stands behind it; `None` where it has none.
pub fn first_token(line: &[u8]) -> Option<(&[u8], &[u8])>
    ensures tokens { MatchOption result (tokens line.now ≡ []) (λ p. tokens line.now ≡ p.0.now ∷ tokens p.1.now) }
    ensures shorter { IfSome result (λ p. length p.1.now < length line.now) }
    ensures within { IfSome result (λ p. length p.0.now ≤ length line.now) }
    // A byte stands between the token and what is left, where something is.
    ensures between { IfSome result (λ p. 0 < length p.1.now → length p.0.now + 1 + length p.1.now ≤ length line.now) }
{
    let mut rest = line;
    while let Some((token, after)) = cut(rest, b' ') {
        if !token.is_empty() {
            return Some((token, after));
        }
        rest = after;
    }
    if rest.is_empty() {
        None
    } else {
        Some((rest, &rest[rest.len()..]))
    }
}
