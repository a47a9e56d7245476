// Reads the numbers of a line.
ghost use Rattle.std.specs.Prelude.{◌≡◌, option_map};
ghost use Rattle.text.specs.Grammar.{pieces, number_list};
ghost use Rattle.text.specs.Heard.{listed, few};

use crate::number::read_number;
use crate::numbers::Numbers;

// The numbers of the fields that spaces part, unless a field is no number or they are too many.
pub(crate) fn read_numbers(fields: &[u8]) -> Option<Numbers>
    ensures { option_map listed result ≡ few (number_list (pieces 32 fields.now)) }
{
    let mut read = Numbers::new();
    for field in fields.split(|b| *b == b' ') {
        read = read.with(read_number(field)?)?;
    }
    Some(read)
}
