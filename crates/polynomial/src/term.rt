// A term: a coefficient, which is a field's code, times a monomial.
use crate::monomial::Monomial;

#[derive(Clone, Copy, PartialEq, Eq, Debug)]
pub struct Term {
    pub coefficient: u16,
    pub monomial: Monomial,
}
