// Cuts a text into lines, and a line into fields.
ghost use Rattle.std.specs.Prelude.{◌≡◌, ◌<◌, length, ◌∷◌, IfSome};
ghost use Rattle.text.specs.Grammar.{pieces, lines};
ghost use Rattle.text.specs.Cuts.{others, lines_from};

// The first piece, and what follows the byte that ends it.
pub(crate) fn cut(bytes: &[u8], stop: u8) -> (&[u8], Option<&[u8]>)
    ensures pieces { pieces stop bytes.now ≡ result.0.now ∷ others stop result.1 }
    ensures whole { result.1 ≡ None → result.0.now ≡ bytes.now }
    ensures shorter { IfSome result.1 (λ rest. length rest.now < length bytes.now) }
{
    match bytes.iter().position(|b| *b == stop) {
        Some(end) => (&bytes[..end], Some(&bytes[end + 1..])),
        None => (bytes, None),
    }
}

// The first line of what is left of a text, or None for bytes that no byte 10 ends, and what follows.
pub fn next_line(text: &[u8]) -> Option<(Option<&[u8]>, &[u8])>
    ensures lines { lines text.now ≡ lines_from result }
    ensures shorter { IfSome result (λ next. length next.1.now < length text.now) }
{
    if text.is_empty() {
        return None;
    }
    let (line, rest) = cut(text, b'\n');
    match rest {
        Some(rest) => Some((Some(line), rest)),
        None => Some((None, &[])),
    }
}
