// The graded reverse order: by degree, and in a tie the smaller at the last differing exponent is higher.
ghost use Rattle.std.specs.Prelude.{◌≡◌};
ghost use Rattle.order.specs.Listed.{backward_lex, reverse};
ghost use Rattle.order.specs.DegreeLaws.{reverse-laws};

use crate::degrees::compare_degrees;
use crate::exponents::are_comparable;
use crate::order::MonomialOrder;
use std::cmp::Ordering;

#[derive(Clone, Copy, PartialEq, Eq, Debug)]
pub struct Reverse;

impl MonomialOrder for Reverse {
    ghost comparison = { λ _. reverse };

    ghost lawful = { λ o n. reverse-laws n };

    fn compare(&self, a: &[u16], b: &[u16]) -> Option<Ordering> {
        are_comparable(a, b).then(|| compare_degrees(a, b).then(compare_backward(a, b)))
    }
}

fn compare_backward(a: &[u16], b: &[u16]) -> Ordering
    ensures { result ≡ backward_lex a.now b.now }
{
    a.iter().rev().cmp(b.iter().rev()).reverse()
}
