// How a polynomial is made, looked at and changed.
ghost use Rattle.std.specs.Prelude.{◌≡◌, [], ◌∷◌, ◌++◌, length, IfOk, if◌then◌else◌, MatchOption, nat_le, nat_lt};
ghost use Rattle.polynomial.specs.Results.{check};
ghost use Rattle.polynomial.specs.declared.flaw.Limit.TheVariants.{Terms};

use crate::flaw::Limit;
use crate::polynomial::{MOST_TERMS, Polynomial};
use crate::term::Term;
use std::alloc::{AllocError, Global};

impl Polynomial {
    // The polynomial 0, with all the memory it will ever take.
    pub fn new(heap: Global) -> Result<Polynomial, AllocError>
        ensures { IfOk result (λ p. p.terms.items ≡ []) }
    {
        let terms = Vec::with_capacity(heap, MOST_TERMS)?;
        Ok(Polynomial { terms })
    }

    pub fn terms(&self) -> &[Term]
        ensures { result.now ≡ self.now.terms.items }
    {
        self.terms.as_slice()
    }

    // The polynomial 0 again.
    pub fn clear(&mut self)
        ensures { self.new.terms.items ≡ [] }
    {
        self.terms.clear();
    }

    // The polynomial with these terms, unless there are more than 512: then nothing changes.
    pub fn load(&mut self, terms: &[Term]) -> Result<(), Limit>
        ensures done { result ≡ check (nat_le (length terms.now) 512) Terms }
        ensures terms { self.new.terms.items ≡ (if nat_le (length terms.now) 512 then terms.now else self.old.terms.items) }
    {
        if terms.len() > MOST_TERMS {
            return Err(Limit::Terms);
        }
        self.clear();
        self.terms.extend_from_slice(terms).unwrap();
        Ok(())
    }

    // One term more, behind the others, unless there are 512 already: then nothing changes.
    pub fn push(&mut self, term: Term) -> Result<(), Limit>
        ensures done { result ≡ check (nat_lt (length self.old.terms.items) 512) Terms }
        ensures terms { self.new.terms.items ≡ (if nat_lt (length self.old.terms.items) 512 then self.old.terms.items ++ (term ∷ []) else self.old.terms.items) }
    {
        if self.terms.len() >= MOST_TERMS {
            return Err(Limit::Terms);
        }
        self.terms.push_reserved(term);
        Ok(())
    }

    // Takes the leading term away, if there is one.
    pub fn take_leading(&mut self) -> Option<Term>
        ensures { MatchOption result ((self.old.terms.items ≡ []) × (self.new.terms.items ≡ [])) (λ t. self.old.terms.items ≡ t ∷ self.new.terms.items) }
    {
        if self.terms.is_empty() {
            return None;
        }
        Some(self.terms.remove(0))
    }
}
