// The graded order: by degree, and lex decides a tie.
ghost use Rattle.order.specs.Listed.{graded};
ghost use Rattle.order.specs.DegreeLaws.{graded-laws};

use crate::degrees::compare_degrees;
use crate::exponents::are_comparable;
use crate::lex::compare_lex;
use crate::order::MonomialOrder;
use std::cmp::Ordering;

#[derive(Clone, Copy, PartialEq, Eq, Debug)]
pub struct Graded;

impl MonomialOrder for Graded {
    ghost comparison = { λ _. graded };

    ghost lawful = { λ o n. graded-laws n };

    fn compare(&self, a: &[u16], b: &[u16]) -> Option<Ordering> {
        are_comparable(a, b).then(|| compare_degrees(a, b).then(compare_lex(a, b)))
    }
}
