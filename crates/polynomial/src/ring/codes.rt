// The field and the order on what belongs to the ring: there they always answer.
// That a number is a code, or a monomial has the ring's number of variables, is asked in clauses: a type cannot name the value of a ring.
ghost use Rattle.polynomial.specs.Rings.{arithmetic_of, comparison_of};
ghost use Rattle.std.specs.Prelude.{◌≡◌, ◌<◌};
ghost use Rattle.polynomial.specs.Views.{exponents_of};

use crate::monomial::Monomial;
use crate::ring::Ring;
use field::Field;
use order::MonomialOrder;
use std::cmp::Ordering;

impl<F: Field, O: MonomialOrder> Ring<F, O> {
    pub(crate) fn plus(&self, a: u16, b: u16) -> u16
        requires a_code { a < (arithmetic_of self.now).size }
        requires b_code { b < (arithmetic_of self.now).size }
        ensures { result ≡ (arithmetic_of self.now).sum a b }
    {
        self.field.sum(a, b).unwrap()
    }

    pub(crate) fn times(&self, a: u16, b: u16) -> u16
        requires a_code { a < (arithmetic_of self.now).size }
        requires b_code { b < (arithmetic_of self.now).size }
        ensures { result ≡ (arithmetic_of self.now).product a b }
    {
        self.field.product(a, b).unwrap()
    }

    pub(crate) fn compare(&self, a: &Monomial, b: &Monomial) -> Ordering
        requires { a.now.variables ≡ b.now.variables }
        ensures { result ≡ comparison_of self.now (exponents_of a.now) (exponents_of b.now) }
    {
        self.order.compare(a.exponents(), b.exponents()).unwrap()
    }
}
