// The lexicographic order: the first differing exponent decides.
ghost use Rattle.std.specs.Prelude.{◌≡◌};
ghost use Rattle.order.specs.Listed.{lex};
ghost use Rattle.order.specs.LexLaws.{lex-laws};

use crate::exponents::are_comparable;
use crate::order::MonomialOrder;
use std::cmp::Ordering;

#[derive(Clone, Copy, PartialEq, Eq, Debug)]
pub struct Lex;

impl MonomialOrder for Lex {
    ghost comparison = { λ _. lex };

    ghost lawful = { λ o n. lex-laws n };

    fn compare(&self, a: &[u16], b: &[u16]) -> Option<Ordering> {
        are_comparable(a, b).then(|| compare_lex(a, b))
    }
}

pub(crate) fn compare_lex(a: &[u16], b: &[u16]) -> Ordering
    ensures { result ≡ lex a.now b.now }
{
    a.cmp(b)
}
