// S-polynomials.
ghost use Rattle.std.specs.Prelude.{◌≡◌, ◌≤◌, [], length, OnOk};
ghost use Rattle.polynomial.specs.Results.{answered};
ghost use Rattle.polynomial.specs.Rings.{over, Within};
ghost use Rattle.polynomial.specs.Views.{view};
ghost use Rattle.division.specs.Limits as limits;

use crate::coefficient::opposite_inverse;
use crate::division::Division;
use crate::pair::Pair;
use field::Field;
use order::MonomialOrder;
use polynomial::{Limit, Multiple, Term, multipliers};

impl Division {
    // Begins to divide the S-polynomial of a pair, made in two steps from 0. A refused one stops where it is.
    pub fn load_s_polynomial<F: Field, O: MonomialOrder>(
        &mut self,
        pair: &Pair<F, O>,
    ) -> Result<(), Limit>
        ensures value { answered result (view self.new.dividend.sum.terms.items) ≡ limits.pair (over pair.now.ring.now) (view pair.now.first.now) (view pair.now.second.now) }
        ensures within { Within pair.now.ring.now (view self.new.dividend.sum.terms.items) }
        ensures few { OnOk result (length self.new.dividend.sum.terms.items ≤ 512) }
        ensures remainder { self.new.remainder.terms.items ≡ [] }
    {
        self.dividend.clear();
        self.remainder.clear();
        let ([a, ..], [b, ..]) = (pair.first, pair.second) else {
            return Ok(());
        };
        let (left, right) = multipliers(&a.monomial, &b.monomial);
        let field = pair.ring.field();
        let inverse = field.inverse(a.coefficient).unwrap();
        let opposite = opposite_inverse(field, b.coefficient).unwrap();
        let first = Multiple {
            ring: pair.ring,
            factor: Term {
                coefficient: inverse,
                monomial: left,
            },
            polynomial: pair.first,
        };
        let second = Multiple {
            ring: pair.ring,
            factor: Term {
                coefficient: opposite,
                monomial: right,
            },
            polynomial: pair.second,
        };
        self.dividend.add(0, &first)?;
        self.dividend.add(0, &second)
    }
}
