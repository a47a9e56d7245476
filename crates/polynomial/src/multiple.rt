// Multiples of polynomials, within limits.
ghost use Rattle.std.specs.Prelude.{◌≤◌, length};
ghost use Rattle.polynomial.specs.Propositions.{Factor-prop, Within-prop};
ghost use Rattle.polynomial.specs.Rings.{Within, Factor};
ghost use Rattle.polynomial.specs.Views.{term_of, view};

use crate::ring::Ring;
use crate::term::Term;
use field::Field;
use order::MonomialOrder;

mod methods;

// A term times a polynomial of at most 512 terms, beside the ring that both belong to.
#[derive(Drop)]
pub struct Multiple<'a, F: Field, O: MonomialOrder> {
    pub ring: &'a Ring<F, O>,
    pub factor: Term,
    pub polynomial: &'a [Term],
    ghost factored: { Factor ring.now (term_of factor) } by { Factor-prop ring.now (term_of factor) },
    ghost within: { Within ring.now (view polynomial.now) } by { Within-prop ring.now (view polynomial.now) },
    ghost few: { length polynomial.now ≤ 512 },
}
