// Division by the elements of a list.
ghost use Rattle.std.specs.Prelude.{◌≡◌, ◌+◌, ◌≤◌, [], length, IfOk, if◌then◌else◌, OnErr, OnOk, nat_le};
ghost use Rattle.polynomial.specs.Kept.{polynomials};
ghost use Rattle.polynomial.specs.Results.{answered, check};
ghost use Rattle.polynomial.specs.Rings.{over, Within, Factor};
ghost use Rattle.polynomial.specs.Views.{term_of, exponents_of, view};
ghost use Rattle.polynomial.specs.declared.flaw.Limit.TheVariants.{Terms};
ghost use Rattle.division.specs.Elements.{elements};
ghost use Rattle.division.specs.Limits.{division};
ghost use Rattle.division.specs.Turns.{cancelled, turned};

use crate::coefficient::opposite_quotient;
use crate::division::Division;
use crate::divisor::find_divisor;
use field::Field;
use order::MonomialOrder;
use polynomial::{Accumulator, Family, Limit, Monomial, Multiple, Polynomial, Ring, Term};
use std::alloc::{AllocError, Global};

// That a dividend is a polynomial of the ring stays a clause: a division outlives the number of variables of its ring, so its type cannot say it.
// So does the same of one polynomial beside a family: a slice with a ring of its own would have to say that the two rings are equal instead.
impl Division {
    // Nothing to divide yet, with all the memory that a division will ever take.
    pub fn new(heap: Global) -> Result<Division, AllocError>
        ensures { IfOk result (λ d. (d.dividend.sum.terms.items ≡ []) × (d.remainder.terms.items ≡ [])) }
    {
        let dividend = Accumulator::new(heap)?;
        let remainder = Polynomial::new(heap)?;
        Ok(Division {
            dividend,
            remainder,
        })
    }

    // What is left to divide.
    pub fn dividend(&self) -> &[Term]
        ensures { result.now ≡ self.now.dividend.sum.terms.items }
    {
        self.dividend.terms()
    }

    pub fn remainder(&self) -> &[Term]
        ensures { result.now ≡ self.now.remainder.terms.items }
    {
        self.remainder.terms()
    }

    // Begins to divide these terms, unless they are more than 512: then nothing changes.
    pub fn load(&mut self, terms: &[Term]) -> Result<(), Limit>
        ensures done { result ≡ check (nat_le (length terms.now) 512) Terms }
        ensures dividend { self.new.dividend.sum.terms.items ≡ (if nat_le (length terms.now) 512 then terms.now else self.old.dividend.sum.terms.items) }
        ensures remainder { self.new.remainder.terms.items ≡ (if nat_le (length terms.now) 512 then [] else self.old.remainder.terms.items) }
    {
        self.dividend.load(terms)?;
        self.remainder.clear();
        Ok(())
    }

    // Takes away the multiple of the element that cancels the leading term.
    fn cancel<F: Field, O: MonomialOrder>(
        &mut self,
        ring: &Ring<F, O>,
        leading: &Term,
        element: &[Term],
        quotient: &Monomial,
    ) -> Result<(), Limit>
        requires leading { Factor ring.now (term_of leading.now) }
        requires quotient { length (exponents_of quotient.now) ≡ ring.now.variables }
        requires element { Within ring.now (view element.now) }
        requires few { length element.now ≤ 512 }
        requires dividend { Within ring.now (view self.old.dividend.sum.terms.items) }
        ensures value { answered result (view self.new.dividend.sum.terms.items) ≡ cancelled (over ring.now) (length self.old.remainder.terms.items) (term_of leading.now) (exponents_of quotient.now) (view element.now) (view self.old.dividend.sum.terms.items) }
        ensures within { Within ring.now (view self.new.dividend.sum.terms.items) }
        ensures kept { OnErr result (self.new.dividend.sum.terms.items ≡ self.old.dividend.sum.terms.items) }
        ensures remainder { self.new.remainder ≡ self.old.remainder }
    {
        let [head, ..] = element else {
            return Ok(());
        };
        let coefficient = opposite_quotient(
            ring.field(),
            leading.coefficient,
            head.coefficient,
        ).unwrap();
        let multiple = Multiple {
            ring,
            factor: Term {
                coefficient,
                monomial: *quotient,
            },
            polynomial: element,
        };
        // the terms of the remainder count among the 512 too
        let beside = self.remainder().len();
        self.dividend.add(beside, &multiple)
    }

    // One turn: the first element that divides the leading term cancels it; if there is none, it moves to the remainder.
    // A refused turn changes nothing.
    pub fn turn<F: Field, O: MonomialOrder>(&mut self, family: &Family<F, O>) -> Result<(), Limit>
        requires dividend { Within family.now.ring.now (view self.old.dividend.sum.terms.items) }
        requires fits { length self.old.remainder.terms.items + length self.old.dividend.sum.terms.items ≤ 512 }
        ensures value { answered result (view self.new.remainder.terms.items, view self.new.dividend.sum.terms.items) ≡ turned (over family.now.ring.now) (elements (polynomials family.now.list.now)) (view self.old.remainder.terms.items) (view self.old.dividend.sum.terms.items) }
        ensures kept { OnErr result ((self.new.remainder.terms.items ≡ self.old.remainder.terms.items) × (self.new.dividend.sum.terms.items ≡ self.old.dividend.sum.terms.items)) }
        ensures within { Within family.now.ring.now (view self.new.dividend.sum.terms.items) }
        ensures fits { length self.new.remainder.terms.items + length self.new.dividend.sum.terms.items ≤ 512 }
    {
        let &[leading, ..] = self.dividend() else {
            return Ok(());
        };
        let Some(divisor) = find_divisor(family.list, &leading.monomial) else {
            let _ = self.dividend.take_leading();
            self.remainder.push(leading).unwrap();
            return Ok(());
        };
        let element = family.get(divisor.number).unwrap();
        self.cancel(family.ring, &leading, element, &divisor.quotient)
    }

    // Divides what is left by the elements of the list, with an empty remainder to begin with. A refused division stops where it is.
    pub fn reduce<F: Field, O: MonomialOrder>(&mut self, family: &Family<F, O>) -> Result<(), Limit>
        requires dividend { Within family.now.ring.now (view self.old.dividend.sum.terms.items) }
        requires few { length self.old.dividend.sum.terms.items ≤ 512 }
        ensures value { answered result (view self.new.remainder.terms.items) ≡ division (over family.now.ring.now) family.now.ring.now.variables (elements (polynomials family.now.list.now)) (view self.old.dividend.sum.terms.items) }
        ensures within { OnOk result (Within family.now.ring.now (view self.new.remainder.terms.items)) }
        ensures few { OnOk result (length self.new.remainder.terms.items ≤ 512) }
    {
        self.remainder.clear();
        while !self.dividend().is_empty() {
            self.turn(family)?;
        }
        Ok(())
    }

    // The remainder of a polynomial by the elements of the list.
    pub fn divide<F: Field, O: MonomialOrder>(
        &mut self,
        family: &Family<F, O>,
        f: &[Term],
    ) -> Result<(), Limit>
        requires dividend { Within family.now.ring.now (view f.now) }
        requires few { length f.now ≤ 512 }
        ensures value { answered result (view self.new.remainder.terms.items) ≡ division (over family.now.ring.now) family.now.ring.now.variables (elements (polynomials family.now.list.now)) (view f.now) }
        ensures within { OnOk result (Within family.now.ring.now (view self.new.remainder.terms.items)) }
        ensures few { OnOk result (length self.new.remainder.terms.items ≤ 512) }
    {
        self.load(f).unwrap();
        self.reduce(family)
    }
}
