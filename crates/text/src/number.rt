// Reads a number.
ghost use Rattle.std.specs.Prelude.{◌≡◌};
ghost use Rattle.text.specs.Grammar.{number};

// The number of a field, if it is one. A field of more than 5 bytes is refused before its digits are read.
// The loop leaves at the first byte that is no digit: a fold would carry the refusal through the rest.
pub fn read_number(field: &[u8]) -> Option<u16>
    ensures { result ≡ number field.now }
{
    if field.is_empty() || field.len() > 5 || field.len() > 1 && field[0] == b'0' {
        return None;
    }
    let mut value: u16 = 0;
    for digit in field {
        if !digit.is_ascii_digit() {
            return None;
        }
        value = value
            .checked_mul(10)?
            .checked_add(u16::from(*digit - b'0'))?;
    }
    Some(value)
}
