// Monomials divided by monomials.
ghost use Rattle.std.specs.Prelude.{◌≡◌};
ghost use Rattle.std.specs.Option.{option_map};
ghost use Rattle.ideal.specs.Divisibility.{divides, to_lcm, quotient};
ghost use Rattle.polynomial.specs.Views.{exponents_of};

use crate::monomial::Monomial;

impl Monomial {
    // Whether no exponent is above that of `other`.
    fn divides(&self, other: &Monomial) -> bool
        ensures { result ≡ divides (exponents_of self.now) (exponents_of other.now) }
    {
        let mut pairs = self.exponents().iter().zip(other.exponents());
        self.variables <= other.variables && pairs.all(|(mine, others)| mine <= others)
    }

    // What this is multiplied by to make the least common multiple: place by place what `other` has more.
    pub fn to_lcm(&self, other: &Monomial) -> Monomial
        ensures { exponents_of result ≡ to_lcm (exponents_of self.now) (exponents_of other.now) }
    {
        let variables = self.variables.min(other.variables);
        let exponents = self.combine(other, |mine, others| others.saturating_sub(mine));
        Monomial {
            exponents,
            variables,
        }
    }

    // This divided by `other`, if `other` divides it.
    pub fn quotient(&self, other: &Monomial) -> Option<Monomial>
        ensures { option_map exponents_of result ≡ quotient (exponents_of self.now) (exponents_of other.now) }
    {
        other.divides(self).then(|| other.to_lcm(self))
    }
}

// What a and b are multiplied by to make their least common multiple.
pub fn multipliers(a: &Monomial, b: &Monomial) -> (Monomial, Monomial)
    ensures left { exponents_of result.0 ≡ to_lcm (exponents_of a.now) (exponents_of b.now) }
    ensures right { exponents_of result.1 ≡ to_lcm (exponents_of b.now) (exponents_of a.now) }
{
    (a.to_lcm(b), b.to_lcm(a))
}
