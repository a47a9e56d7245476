// What is done with monomials.
ghost use Rattle.std.specs.Prelude.{◌≡◌, ℕ, ◌-◌, ◌<◌, ◌≤◌, min, true, false, ◌&&◌, length, drop, replicate, MatchOption, nat_le, slice_index};
ghost use Rattle.order.specs.Monomials.{multiply, small};
ghost use Rattle.polynomial.specs.Views.{exponents_of};

use crate::monomial::Monomial;
use order::{MOST_EXPONENT, MOST_VARIABLES};

impl Monomial {
    // The monomial with these exponents, unless they are too many or one is too high.
    pub fn from_exponents(row: &[u16]) -> Option<Monomial>
        ensures { MatchOption result ((nat_le (length row.now) 24 && small row.now) ≡ false) (λ m. ((nat_le (length row.now) 24 && small row.now) ≡ true) × (exponents_of m ≡ row.now) × (m.variables ≡ length row.now)) }
    {
        let variables = row.len();
        if variables > MOST_VARIABLES {
            return None;
        }
        let mut exponents = [0; 24];
        // tested and written in one pass: every term of a table comes through here
        for i in 0..variables {
            let exponent = row[i];
            if exponent > MOST_EXPONENT {
                return None;
            }
            exponents[i] = exponent;
        }
        Some(Monomial {
            exponents,
            variables,
        })
    }

    pub fn exponents(&self) -> &[u16]
        ensures value { result.now ≡ exponents_of self.now }
        ensures len { length result.now ≡ self.now.variables }
    {
        &self.exponents[..self.variables]
    }

    // Place by place what `f` makes of both exponents, as far as both monomials reach, and 0 behind.
    pub(crate) fn combine<F: Fn(u16, u16) -> u16>(&self, other: &Monomial, f: F) -> [u16; 24]
        requires pre { (a : _) (b : _) → a ≤ 255 → b ≤ 255 → F.pre f a b }
        ensures len { length result ≡ 24 }
        ensures both { (k : ℕ) → k < min self.now.variables other.now.variables → F.post f (slice_index self.now.exponents k) (slice_index other.now.exponents k) (slice_index result k) }
        ensures zeros { drop (min self.now.variables other.now.variables) result ≡ replicate (24 - min self.now.variables other.now.variables) 0 }
    {
        let reach = self.variables.min(other.variables);
        let mut exponents = [0; 24];
        // no further than both reach: monomials often have few variables, and all 24 places take several times as long
        for i in 0..reach {
            exponents[i] = f(self.exponents[i], other.exponents[i]);
        }
        exponents
    }

    // The product, unless an exponent passes 255.
    pub fn product(&self, other: &Monomial) -> Option<Monomial>
        ensures { MatchOption result (small (multiply (exponents_of self.now) (exponents_of other.now)) ≡ false) (λ p. (small (multiply (exponents_of self.now) (exponents_of other.now)) ≡ true) × (exponents_of p ≡ multiply (exponents_of self.now) (exponents_of other.now))) }
    {
        let variables = self.variables.min(other.variables);
        let mut exponents = [0; 24];
        // added and tested in one pass, as far as both reach: every term of a multiple comes through here
        for i in 0..variables {
            let exponent = self.exponents[i] + other.exponents[i];
            if exponent > MOST_EXPONENT {
                return None;
            }
            exponents[i] = exponent;
        }
        Some(Monomial {
            exponents,
            variables,
        })
    }
}
