// The binary fields: polynomials in t over the residues of 2, by the bits of their codes, of 2, 3 or 4 bits.
ghost use Rattle.std.specs.Prelude.{◌≡◌, ◌<◌, true, false, MatchResult};
ghost use Rattle.field.specs.Binaries.{is_binary_size, times_t, times, binaries};
ghost use Rattle.field.specs.BinaryLaws.{binary-laws};

use crate::fault::FieldFault;
use crate::field::Field;

// No code has more bits.
const MOST_BITS: u16 = 4;

// The code of t + 1: what reduces t², t³ or t⁴ is that power and t + 1.
const T_PLUS_ONE: u16 = 3;

#[derive(Clone, Copy, PartialEq, Eq, Debug)]
pub struct BinaryField {
    size: u16,
    ghost listed: { is_binary_size size ≡ true },
}

impl BinaryField {
    // Written out in both fields: which sizes are listed and what they mean is all that a constructor says.
    pub fn new(size: u16) -> Result<BinaryField, FieldFault>
        ensures { MatchResult result
            (λ f. (is_binary_size size ≡ true) × (binaries f.size ≡ binaries size))
            (λ e. (is_binary_size size ≡ false) × (e ≡ FieldFault.UnlistedSize)) }
    {
        match size {
            4 | 8 | 16 => Ok(BinaryField { size }),
            _ => Err(FieldFault::UnlistedSize),
        }
    }

    // t times `a`, reduced.
    fn times_t(&self, a: u16) -> u16
        requires { a < self.now.size }
        ensures { result ≡ times_t self.now.size a }
    {
        let doubled = 2 * a;
        if doubled < self.size {
            doubled
        } else {
            doubled ^ (self.size + T_PLUS_ONE)
        }
    }

    // The sum of `a` shifted by each bit of `b` that is 1.
    fn times(&self, a: u16, b: u16) -> u16
        requires { a < self.now.size }
        ensures { result ≡ times self.now.size 4 a b }
    {
        let mut shifted = a;
        let mut bits = b;
        let mut total = 0;
        // bits are shifted out one by one: a number has no iterator over them
        for _ in 0..MOST_BITS {
            if bits % 2 == 1 {
                total ^= shifted;
            }
            shifted = self.times_t(shifted);
            bits /= 2;
        }
        total
    }
}

impl Field for BinaryField {
    ghost arithmetic = { λ f. binaries f.size };

    ghost lawful = { λ f. binary-laws f.size f.listed };

    fn size(&self) -> u16 {
        self.size
    }

    fn sum(&self, a: u16, b: u16) -> Option<u16> {
        (a < self.size && b < self.size).then(|| a ^ b)
    }

    fn opposite(&self, a: u16) -> Option<u16> {
        (a < self.size).then_some(a)
    }

    fn product(&self, a: u16, b: u16) -> Option<u16> {
        (a < self.size && b < self.size).then(|| self.times(a, b))
    }
}
