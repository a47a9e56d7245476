// How a multiple is written out and added.
ghost use Rattle.std.specs.Prelude.{◌≡◌, OnOk};
ghost use Rattle.ideal.specs.Polynomials.{sum, multiple};
ghost use Rattle.polynomial.specs.Limits.{tight, step};
ghost use Rattle.polynomial.specs.Results.{answered};
ghost use Rattle.polynomial.specs.Rings.{over, Within};
ghost use Rattle.polynomial.specs.Views.{term_of, view};

use crate::flaw::Limit;
use crate::multiple::Multiple;
use crate::polynomial::{MOST_TERMS, Polynomial};
use crate::term::Term;
use field::Field;
use order::MonomialOrder;

impl<F: Field, O: MonomialOrder> Multiple<'_, F, O> {
    // Its terms, if no exponent passes 255.
    fn write(&self, out: &mut Polynomial) -> Result<(), Limit>
        ensures { answered result (view out.new.terms.items) ≡ tight (multiple (over self.now.ring.now) (term_of self.now.factor) (view self.now.polynomial.now)) }
    {
        out.terms.clear();
        for term in self.polynomial {
            let Some(monomial) = self.factor.monomial.product(&term.monomial) else {
                return Err(Limit::Exponent);
            };
            let coefficient = self.ring.times(self.factor.coefficient, term.coefficient);
            out.terms.push_reserved(Term {
                coefficient,
                monomial,
            });
        }
        Ok(())
    }

    // The sum of this and f in one step; `beside` terms are kept elsewhere and count among the 512 too.
    pub(crate) fn add_to(
        &self,
        beside: usize,
        f: &[Term],
        product: &mut Polynomial,
        out: &mut Polynomial,
    ) -> Result<(), Limit>
        requires { Within self.now.ring.now (view f.now) }
        ensures value { answered result (view out.new.terms.items) ≡ step (over self.now.ring.now) beside (term_of self.now.factor) (view self.now.polynomial.now) (view f.now) }
        ensures sum { OnOk result (view out.new.terms.items ≡ sum (over self.now.ring.now) (multiple (over self.now.ring.now) (term_of self.now.factor) (view self.now.polynomial.now)) (view f.now)) }
        ensures within { OnOk result (Within self.now.ring.now (view out.new.terms.items)) }
    {
        self.write(product)?;
        let room = MOST_TERMS.saturating_sub(beside);
        self.ring.sum(room, product.terms(), f, out)
    }
}
