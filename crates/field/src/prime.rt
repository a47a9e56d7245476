// The prime fields: residues modulo a listed prime.
ghost use Rattle.std.specs.Prelude.{◌≡◌, true, false, MatchResult};
ghost use Rattle.field.specs.Primes.{is_prime_size, residues};
ghost use Rattle.field.specs.PrimeLaws.{prime_laws};

use crate::fault::FieldFault;
use crate::field::Field;

#[derive(Clone, Copy, PartialEq, Eq, Debug)]
pub struct PrimeField {
    modulus: u16,
    ghost listed: { is_prime_size modulus ≡ true },
}

impl PrimeField {
    // Written out in both fields: which sizes are listed and what they mean is all that a constructor says.
    pub fn new(size: u16) -> Result<PrimeField, FieldFault>
        ensures { MatchResult result
            (λ f. (is_prime_size size ≡ true) × (residues f.modulus ≡ residues size))
            (λ e. (is_prime_size size ≡ false) × (e ≡ FieldFault.UnlistedSize)) }
    {
        match size {
            2 | 3 | 5 | 7 | 11 | 13 | 17 | 19 | 23 | 29 | 31 => Ok(PrimeField { modulus: size }),
            _ => Err(FieldFault::UnlistedSize),
        }
    }
}

impl Field for PrimeField {
    ghost arithmetic = { λ f. residues f.modulus };

    ghost lawful = { λ f. prime_laws f.modulus f.listed };

    fn size(&self) -> u16 {
        self.modulus
    }

    fn sum(&self, a: u16, b: u16) -> Option<u16> {
        (a < self.modulus && b < self.modulus).then(|| (a + b) % self.modulus)
    }

    fn opposite(&self, a: u16) -> Option<u16> {
        (a < self.modulus).then(|| (self.modulus - a) % self.modulus)
    }

    fn product(&self, a: u16, b: u16) -> Option<u16> {
        (a < self.modulus && b < self.modulus).then(|| a * b % self.modulus)
    }
}
