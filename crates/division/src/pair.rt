// Two polynomials of one ring.
ghost use Rattle.std.specs.Prelude.{◌≤◌, length};
ghost use Rattle.polynomial.specs.Propositions.{Within-prop};
ghost use Rattle.polynomial.specs.Rings.{Within};
ghost use Rattle.polynomial.specs.Views.{view};

use field::Field;
use order::MonomialOrder;
use polynomial::{Ring, Term};

// Two polynomials beside the ring that they belong to, of at most 512 terms each. A `Family` has its polynomials in a list, by number.
#[derive(Drop)]
pub struct Pair<'a, F: Field, O: MonomialOrder> {
    pub ring: &'a Ring<F, O>,
    pub first: &'a [Term],
    pub second: &'a [Term],
    ghost first_within: { Within ring.now (view first.now) } by { Within-prop ring.now (view first.now) },
    ghost second_within: { Within ring.now (view second.now) } by { Within-prop ring.now (view second.now) },
    ghost first_few: { length first.now ≤ 512 },
    ghost second_few: { length second.now ≤ 512 },
}
