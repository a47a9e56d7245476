// A sum that grows by one multiple after another, in memory reserved once.
// A clause says that the sum is a polynomial of the ring: a sum outlives the ring's number of variables, so its type cannot.
ghost use Rattle.std.specs.Prelude.{◌≡◌, [], ◌∷◌, length, IfOk, if◌then◌else◌, MatchOption, MatchResult, nat_le};
ghost use Rattle.ideal.specs.Polynomials.{sum, multiple};
ghost use Rattle.polynomial.specs.Limits.{step};
ghost use Rattle.polynomial.specs.Results.{answered, check};
ghost use Rattle.polynomial.specs.declared.flaw.Limit.TheVariants.{Terms};
ghost use Rattle.polynomial.specs.Rings.{over, Within};
ghost use Rattle.polynomial.specs.Views.{term_of, view};

use crate::flaw::Limit;
use crate::multiple::Multiple;
use crate::polynomial::Polynomial;
use crate::term::Term;
use field::Field;
use order::MonomialOrder;
use std::alloc::{AllocError, Global};

// Only its sum is shown, so four methods hand on what `Polynomial` does: the two other polynomials are room for a step.
#[derive(Drop)]
pub struct Accumulator {
    sum: Polynomial,
    product: Polynomial,
    spare: Polynomial,
}

impl Accumulator {
    // The sum 0, with all the memory that a step will ever take. Each type reserves its own parts, so `new` is written for each.
    pub fn new(heap: Global) -> Result<Accumulator, AllocError>
        ensures { IfOk result (λ a. a.sum.terms.items ≡ []) }
    {
        let sum = Polynomial::new(heap)?;
        let product = Polynomial::new(heap)?;
        let spare = Polynomial::new(heap)?;
        Ok(Accumulator {
            sum,
            product,
            spare,
        })
    }

    pub fn terms(&self) -> &[Term]
        ensures { result.now ≡ self.now.sum.terms.items }
    {
        Polynomial::terms(&self.sum)
    }

    // Begins again from 0.
    pub fn clear(&mut self)
        ensures { self.new.sum.terms.items ≡ [] }
    {
        self.sum.clear();
    }

    // Begins again from this polynomial, unless it has more than 512 terms: then nothing changes.
    pub fn load(&mut self, terms: &[Term]) -> Result<(), Limit>
        ensures done { result ≡ check (nat_le (length terms.now) 512) Terms }
        ensures sum { self.new.sum.terms.items ≡ (if nat_le (length terms.now) 512 then terms.now else self.old.sum.terms.items) }
    {
        self.sum.load(terms)
    }

    // Takes the leading term away, if there is one.
    pub fn take_leading(&mut self) -> Option<Term>
        ensures { MatchOption result ((self.old.sum.terms.items ≡ []) × (self.new.sum.terms.items ≡ [])) (λ t. self.old.sum.terms.items ≡ t ∷ self.new.sum.terms.items) }
    {
        self.sum.take_leading()
    }

    // Adds a multiple in one step; `beside` terms are kept elsewhere and count among the 512 too. A refused step changes nothing.
    pub fn add<F: Field, O: MonomialOrder>(
        &mut self,
        beside: usize,
        summand: &Multiple<F, O>,
    ) -> Result<(), Limit>
        requires { Within summand.now.ring.now (view self.old.sum.terms.items) }
        ensures value { answered result (view self.new.sum.terms.items) ≡ step (over summand.now.ring.now) beside (term_of summand.now.factor) (view summand.now.polynomial.now) (view self.old.sum.terms.items) }
        ensures sum { MatchResult result (λ _. view self.new.sum.terms.items ≡ sum (over summand.now.ring.now) (multiple (over summand.now.ring.now) (term_of summand.now.factor) (view summand.now.polynomial.now)) (view self.old.sum.terms.items)) (λ _. self.new.sum.terms.items ≡ self.old.sum.terms.items) }
        ensures within { Within summand.now.ring.now (view self.new.sum.terms.items) }
    {
        summand.add_to(beside, self.sum.terms(), &mut self.product, &mut self.spare)?;
        std::mem::swap(&mut self.sum, &mut self.spare);
        Ok(())
    }
}
