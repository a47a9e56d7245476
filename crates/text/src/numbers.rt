// The numbers of a line, at most 25.
ghost use Rattle.std.specs.Prelude.{◌≡◌, ◌-◌, ◌≤◌, length, drop, replicate};

mod methods;
mod reading;

pub(crate) use reading::read_numbers;

// A coefficient and the exponents of 24 variables.
pub const MOST_NUMBERS: usize = 25;

// The numbers stand in the first `count` places, and 0 in the others, so that equal numbers are equal arrays.
// An array with a length beside, and no Vec: the memory is fixed, and the numbers are copied.
#[derive(Clone, Copy, PartialEq, Eq, Debug)]
pub struct Numbers {
    numbers: [u16; 25],
    count: usize,
    ghost few: { count ≤ 25 },
    ghost full: { length numbers ≡ 25 },
    ghost zeros: { drop count numbers ≡ replicate (25 - count) 0 },
}
