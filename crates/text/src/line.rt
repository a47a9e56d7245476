// Reads a line after the head.
ghost use Rattle.std.specs.Prelude.{◌≡◌};
ghost use Rattle.text.specs.Cuts.{shown};
ghost use Rattle.text.specs.Grammar.{pieces, put_numbers, said, meant};
ghost use Rattle.text.specs.Heard.{heard, heard_numbers};

use crate::cut::cut;
use crate::numbers::{Numbers, read_numbers};

// What a line says; Other is a line of another form.
#[derive(Clone, Copy, PartialEq, Eq, Debug)]
pub enum Line {
    Put(Numbers),
    Cofactor,
    Rule,
    Offer,
    Question,
    Close,
    Finish,
    Other,
}

// The numbers of a put line: a coefficient, and an exponent of each variable.
fn read_put(line: &[u8], variables: usize) -> Option<Numbers>
    ensures { heard_numbers result ≡ put_numbers variables (pieces 32 line.now) }
{
    let (word, rest) = cut(line, b' ');
    if word != b"put".as_slice() {
        return None;
    }
    let numbers = read_numbers(rest?)?;
    match numbers.as_slice() {
        [_, exponents @ ..] if exponents.len() == variables => Some(numbers),
        _ => None,
    }
}

// What a line says that byte 10 ends. A chain and no match: a match on byte strings goes byte by byte, and its proof did not close.
fn read_ended(line: &[u8], variables: usize) -> Line
    ensures { heard result ≡ said variables line.now }
{
    if line == b"cofactor".as_slice() {
        Line::Cofactor
    } else if line == b"rule".as_slice() {
        Line::Rule
    } else if line == b"offer".as_slice() {
        Line::Offer
    } else if line == b"question".as_slice() {
        Line::Question
    } else if line == b"close".as_slice() {
        Line::Close
    } else if line == b"finish".as_slice() {
        Line::Finish
    } else {
        read_put(line, variables).map_or(Line::Other, Line::Put)
    }
}

// What a later line says; None is a line that no byte 10 ends.
pub fn read_line(line: Option<&[u8]>, variables: usize) -> Line
    ensures { heard result ≡ meant variables (shown line.entry) }
{
    match line {
        Some(line) => read_ended(line, variables),
        None => Line::Other,
    }
}
