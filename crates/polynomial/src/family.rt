// Polynomials of one ring.
ghost use Rattle.std.specs.Prelude.{◌≡◌, ◌<◌, ◌≤◌, [], length, MatchOption, slice_index_or};
ghost use Rattle.ideal.specs.Lists.{Each};
ghost use Rattle.polynomial.specs.Kept.{polynomials};
ghost use Rattle.polynomial.specs.Propositions.{Family-prop};
ghost use Rattle.polynomial.specs.Rings.{Within};
ghost use Rattle.polynomial.specs.Views.{view};

use crate::list::PolynomialList;
use crate::ring::Ring;
use crate::term::Term;
use field::Field;
use order::MonomialOrder;

// A list of polynomials beside the ring that they belong to.
#[derive(Drop)]
pub struct Family<'a, F: Field, O: MonomialOrder> {
    pub ring: &'a Ring<F, O>,
    pub list: &'a PolynomialList,
    ghost within: { Each (Within ring.now) (polynomials list.now) } by { Family-prop ring.now (polynomials list.now) },
}

impl<'a, F: Field, O: MonomialOrder> Family<'a, F, O> {
    // Polynomial number i, if there are so many.
    pub fn get(&self, i: usize) -> Option<&'a [Term]>
        ensures { MatchOption result (length (polynomials self.now.list.now) ≤ i) (λ p. (i < length (polynomials self.now.list.now)) × (view p.now ≡ slice_index_or (polynomials self.now.list.now) i []) × Within self.now.ring.now (view p.now) × (length p.now ≤ 32)) }
    {
        self.list.get(i)
    }
}
