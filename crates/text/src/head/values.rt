// Reads the first two lines.
ghost use Rattle.std.specs.Prelude.{◌≡◌, option_map};
ghost use Rattle.text.specs.Grammar.{pieces};
ghost use Rattle.text.specs.Heads.{is_title, kind, order, values, values_of};

use crate::cut::cut;
use crate::head::{FieldLine, Kind, Order};
use crate::number::read_number;

pub fn is_title(line: &[u8]) -> bool
    ensures { result ≡ is_title line.now }
{
    line == b"field size order".as_slice()
}

// Chains, as for the words of a later line.
fn read_kind(word: &[u8]) -> Option<Kind>
    ensures { result ≡ kind word.now }
{
    if word == b"residue".as_slice() {
        Some(Kind::Residue)
    } else if word == b"bits".as_slice() {
        Some(Kind::Bits)
    } else {
        None
    }
}

fn read_order(word: &[u8]) -> Option<Order>
    ensures { result ≡ order word.now }
{
    if word == b"lex".as_slice() {
        Some(Order::Lex)
    } else if word == b"graded".as_slice() {
        Some(Order::Graded)
    } else if word == b"reverse".as_slice() {
        Some(Order::Reverse)
    } else {
        None
    }
}

// A kind, a size and an order.
pub fn read_values(line: &[u8]) -> Option<FieldLine>
    ensures { option_map values_of result ≡ values (pieces 32 line.now) }
{
    let (kind, rest) = cut(line, b' ');
    let (size, rest) = cut(rest?, b' ');
    let (order, rest) = cut(rest?, b' ');
    if rest.is_some() {
        return None;
    }
    Some(FieldLine {
        kind: read_kind(kind)?,
        size: read_number(size)?,
        order: read_order(order)?,
    })
}
