//! Texts cut at the places of a byte, one after another, without memory.
ghost use Rattle.std.specs.Prelude.{◌≡◌, ◌==◌, ◌+◌, ◌∷◌, [], length, IfSome, MatchOption};
ghost use Rattle.std.specs.List.{slice_split, position};

/// The first place of a byte in a text.
pub fn place_of(text: &[u8], byte: u8) -> Option<usize>
    ensures { result ≡ position (λ b. b == byte) text.now }
{
    text.iter().position(|b| *b == byte)
}

/// A text up to the first place of a byte, and what stands behind that place; `None` where the byte is not in it.
pub fn cut(text: &[u8], byte: u8) -> Option<(&[u8], &[u8])>
    ensures parts { MatchOption result (slice_split (λ b. b == byte) text.now ≡ text.now ∷ []) (λ p. slice_split (λ b. b == byte) text.now ≡ p.0.now ∷ slice_split (λ b. b == byte) p.1.now) }
    ensures sizes { IfSome result (λ p. length p.0.now + 1 + length p.1.now ≡ length text.now) }
{
    match place_of(text, byte) {
        Some(at) => Some((&text[..at], &text[at + 1..])),
        None => None,
    }
}
