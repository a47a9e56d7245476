// The element that a turn of a division uses.
ghost use Rattle.polynomial.specs.Kept.{polynomials};
ghost use Rattle.polynomial.specs.Views.{exponents_of};
ghost use Rattle.division.specs.Divisors.{Found, Gives};

use polynomial::{Monomial, PolynomialList};

// Number `number` of a list, and the quotient by its leading monomial.
#[derive(Clone, Copy, PartialEq, Eq, Debug)]
pub struct Divisor {
    pub number: usize,
    pub quotient: Monomial,
}

// Element number `number` and the quotient by its leading monomial, if that divides this monomial.
fn divisor_at(elements: &PolynomialList, monomial: &Monomial, number: usize) -> Option<Divisor>
    ensures { Gives (polynomials elements.now) (exponents_of monomial.now) number result }
{
    let leading = elements.get(number)?.first()?;
    let quotient = monomial.quotient(&leading.monomial)?;
    Some(Divisor { number, quotient })
}

// The first element whose leading monomial divides this one.
pub fn find_divisor(elements: &PolynomialList, monomial: &Monomial) -> Option<Divisor>
    ensures { Found (polynomials elements.now) (exponents_of monomial.now) result }
{
    // a loop, and no `find_map`: that copies what it looks at once more for every element that does not divide
    for number in 0..elements.len() {
        if let Some(divisor) = divisor_at(elements, monomial, number) {
            return Some(divisor);
        }
    }
    None
}
