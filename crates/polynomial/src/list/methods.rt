// How polynomials are kept and looked up.
ghost use Rattle.std.specs.Prelude.{◌≡◌, ◌<◌, ◌≤◌, ◌&&◌, [], ◌∷◌, ◌++◌, length, IfOk, if◌then◌else◌, MatchOption, nat_le, nat_lt, slice_index_or, take};
ghost use Rattle.polynomial.specs.Cuts.{total};
ghost use Rattle.polynomial.specs.Kept.{polynomials};
ghost use Rattle.polynomial.specs.Places.{place_for};
ghost use Rattle.polynomial.specs.Views.{view};

use crate::flaw::Unkept;
use crate::list::{MOST_KEPT_TERMS, MOST_POLYNOMIALS, PolynomialList};
use crate::term::Term;
use std::alloc::{AllocError, Global};

const MOST_TERMS_IN_ALL: usize = MOST_POLYNOMIALS * MOST_KEPT_TERMS;

impl PolynomialList {
    // No polynomials yet, with all the memory they will ever take.
    pub fn new(heap: Global) -> Result<PolynomialList, AllocError>
        ensures { IfOk result (λ l. polynomials l ≡ []) }
    {
        let terms = Vec::with_capacity(heap, MOST_TERMS_IN_ALL)?;
        let counts = Vec::with_capacity(heap, MOST_POLYNOMIALS)?;
        Ok(PolynomialList { terms, counts })
    }

    // How many terms each polynomial has.
    fn counts(&self) -> &[usize]
        ensures value { result.now ≡ self.now.counts.items }
        ensures len { length result.now ≡ length (polynomials self.now) }
    {
        self.counts.as_slice()
    }

    // How many polynomials there are.
    pub fn len(&self) -> usize
        ensures { result ≡ length (polynomials self.now) }
    {
        self.counts().len()
    }

    // Forgets all that is kept.
    pub fn clear(&mut self)
        ensures { polynomials self.new ≡ [] }
    {
        self.terms.clear();
        self.counts.clear();
    }

    // Keeps one polynomial more. The memory for its terms is there, so that the first call cannot fail.
    fn append(&mut self, p: &[Term])
        requires few { length (polynomials self.old) < 32 }
        requires short { length p.now ≤ 32 }
        ensures { polynomials self.new ≡ polynomials self.old ++ (view p.now ∷ []) }
    {
        self.terms.extend_from_slice(p).unwrap();
        self.counts.push_reserved(p.len());
    }

    // Keeps one polynomial more, unless there are 32 already or it has more than 32 terms: then nothing changes.
    pub fn push(&mut self, p: &[Term]) -> Result<(), Unkept>
        ensures done { result ≡ place_for (length (polynomials self.old)) (length p.now) }
        ensures kept { polynomials self.new ≡ (if nat_lt (length (polynomials self.old)) 32 && nat_le (length p.now) 32 then polynomials self.old ++ (view p.now ∷ []) else polynomials self.old) }
    {
        if self.len() >= MOST_POLYNOMIALS {
            return Err(Unkept::ListFull);
        }
        if p.len() > MOST_KEPT_TERMS {
            return Err(Unkept::TooLong);
        }
        self.append(p);
        Ok(())
    }

    // How many terms stand before those of polynomial number i. An index is asked to be in range, as every index is.
    fn start(&self, i: usize) -> usize
        requires { i < length (polynomials self.now) }
        ensures { result ≡ total (take i self.now.counts.items) }
    {
        // over a part of the counts, and no `take`: a divisor is looked for in every element, by its number
        self.counts()[..i].iter().sum()
    }

    // Polynomial number i, which begins where those before it end.
    fn nth(&self, i: usize) -> &[Term]
        requires { i < length (polynomials self.now) }
        ensures value { view result.now ≡ slice_index_or (polynomials self.now) i [] }
        ensures short { length result.now ≤ 32 }
    {
        let start = self.start(i);
        &self.terms.as_slice()[start..start + self.counts()[i]]
    }

    // Polynomial number i, if there are so many.
    pub fn get(&self, i: usize) -> Option<&[Term]>
        ensures { MatchOption result (length (polynomials self.now) ≤ i) (λ p. (i < length (polynomials self.now)) × (view p.now ≡ slice_index_or (polynomials self.now) i []) × (length p.now ≤ 32)) }
    {
        if i >= self.len() {
            return None;
        }
        Some(self.nth(i))
    }
}
