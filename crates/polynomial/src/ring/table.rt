// Reads a polynomial from a table of 16-bit numbers: to each term its coefficient, then its exponents.
ghost use Rattle.std.specs.Prelude.{◌≡◌, ◌+◌, ◌≤◌, length, IfSome, IfOk, OnOk};
ghost use Rattle.std.specs.Option.{option_map};
ghost use Rattle.polynomial.specs.Results.{answered, mapped_ok};
ghost use Rattle.polynomial.specs.Rings.{arithmetic_of, comparison_of, in_ring, Within};
ghost use Rattle.polynomial.specs.Tables.{most, falls, term, read};
ghost use Rattle.polynomial.specs.Views.{exponents_of, term_of, view};

use crate::flaw::{Flaw, TableSize};
use crate::list::MOST_KEPT_TERMS;
use crate::monomial::Monomial;
use crate::polynomial::{MOST_TERMS, Polynomial};
use crate::ring::Ring;
use crate::term::Term;
use field::Field;
use order::MonomialOrder;

impl TableSize {
    pub fn most(self) -> usize
        ensures { result ≡ most self }
    {
        match self {
            TableSize::Short => MOST_KEPT_TERMS,
            TableSize::Long => MOST_TERMS,
        }
    }
}

impl<F: Field, O: MonomialOrder> Ring<F, O> {
    // Whether a monomial is lower than the one before, if there is one.
    fn falls(&self, last: Option<Monomial>, monomial: &Monomial) -> bool
        requires alike { IfSome last (λ m. m.variables ≡ monomial.now.variables) }
        ensures { result ≡ falls (comparison_of self.now) (option_map exponents_of last) (exponents_of monomial.now) }
    {
        last.is_none_or(|last| self.compare(monomial, &last).is_lt())
    }

    // Term `number` of a table from its own numbers, behind the monomial of the term before.
    fn read_term(
        &self,
        number: usize,
        last: Option<Monomial>,
        numbers: &[u16],
    ) -> Result<Term, Flaw>
        requires whole { length numbers.now ≡ self.now.variables + 1 }
        requires alike { IfSome last (λ m. m.variables ≡ self.now.variables) }
        ensures value { mapped_ok term_of result ≡ term (arithmetic_of self.now) (comparison_of self.now) number (option_map exponents_of last) numbers.now }
        ensures variables { IfOk result (λ t. t.monomial.variables ≡ self.now.variables) }
    {
        // `split_first` and `ok_or` say no more, and their proof did not close
        let [coefficient, exponents @ ..] = numbers else {
            return Err(Flaw::Length);
        };
        let coefficient = *coefficient;
        if coefficient == 0 || coefficient >= self.field.size() {
            return Err(Flaw::Coefficient(number));
        }
        // no `ok_or` and `?`, here and in a multiple: they copy the monomial once more
        let Some(monomial) = Monomial::from_exponents(exponents) else {
            return Err(Flaw::Exponent(number));
        };
        if !self.falls(last, &monomial) {
            return Err(Flaw::Order(number));
        }
        Ok(Term {
            coefficient,
            monomial,
        })
    }

    // Reads a whole table.
    pub fn read(&self, size: TableSize, table: &[u16], out: &mut Polynomial) -> Result<(), Flaw>
        ensures value { answered result (view out.new.terms.items) ≡ in_ring read self.now (most size) table.now }
        ensures within { OnOk result (Within self.now (view out.new.terms.items)) }
        ensures few { OnOk result (length out.new.terms.items ≤ most size) }
    {
        out.terms.clear();
        let stride = self.variables + 1;
        if table.len() % stride != 0 {
            return Err(Flaw::Length);
        }
        if table.len() / stride > size.most() {
            return Err(Flaw::Terms);
        }
        let mut last: Option<Monomial> = None;
        for (number, numbers) in table.chunks_exact(stride).enumerate() {
            let term = self.read_term(number, last, numbers)?;
            last = Some(term.monomial);
            out.terms.push_reserved(term);
        }
        Ok(())
    }
}
