//! The parts of a text between bytes of one kind.
ghost use Rattle.std.specs.Prelude.{◌≡◌, ◌<◌, ◌≤◌, ◌==◌, ◌∷◌, [], length, position, IfNone, IfSome};
ghost use Rattle.trace_check.specs.Lines.{split_at};
ghost use Rattle.trace_check.specs.Lines.{parts_after};

// The place of a byte.
fn place_of(text: &[u8], byte: u8) -> Option<usize>
    ensures { result ≡ position (λ b. b == byte) text.now }
{
    text.iter().position(|other| *other == byte)
}

/// The first part of a text, and the rest, where the byte stands before each part.
pub(crate) fn first_part(text: &[u8], byte: u8) -> (&[u8], &[u8])
    ensures part { split_at byte text.now ≡ result.0.now ∷ parts_after byte result.1.now }
    ensures shorter { length result.1.now ≤ length text.now }
{
    match place_of(text, byte) {
        Some(place) => (&text[..place], &text[place..]),
        None => (text, &[]),
    }
}

/// The next part after the byte, and the rest.
pub(crate) fn next_part(text: &[u8], byte: u8) -> Option<(&[u8], &[u8])>
    ensures none { IfNone result (parts_after byte text.now ≡ []) }
    ensures some { IfSome result (λ p. parts_after byte text.now ≡ p.0.now ∷ parts_after byte p.1.now) }
    ensures shorter { IfSome result (λ p. length p.1.now < length text.now) }
{
    match text {
        [] => None,
        [_, parts @ ..] => Some(first_part(parts, byte)),
    }
}
