// Reads the third line.
ghost use Rattle.std.specs.Prelude.{◌≡◌};
ghost use Rattle.text.specs.Grammar.{pieces};
ghost use Rattle.text.specs.Heads.{is_name, name_count, names};

use crate::cut::cut;

fn is_name(word: &[u8]) -> bool
    ensures { result ≡ is_name word.now }
{
    if word.is_empty() || word.len() > 8 {
        return false;
    }
    word.iter().all(|b| b.is_ascii_lowercase())
}

// How many names the spaces part, unless a field is none. One walk that tests and counts: `all` and `count` would be two.
fn count_fields(fields: &[u8]) -> Option<usize>
    ensures { result ≡ name_count (pieces 32 fields.now) }
{
    let mut count = 0;
    for field in fields.split(|b| *b == b' ') {
        if !is_name(field) {
            return None;
        }
        count += 1;
    }
    Some(count)
}

// How many names the third line has, if it is of its form.
pub fn count_names(line: &[u8]) -> Option<usize>
    ensures { result ≡ names (pieces 32 line.now) }
{
    let (first, rest) = cut(line, b' ');
    let (second, rest) = cut(rest?, b' ');
    if first != b"do".as_slice() || second != b"coef".as_slice() {
        return None;
    }
    match rest {
        Some(fields) => count_fields(fields),
        None => Some(0),
    }
}
