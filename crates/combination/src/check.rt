// The check of one offered basis element, in memory reserved once.
ghost use Rattle.std.specs.Prelude.{◌≡◌, ◌≤◌, [], length, IfOk, OnOk};
ghost use Rattle.polynomial.specs.Kept.{polynomials};
ghost use Rattle.polynomial.specs.Results.{answered};
ghost use Rattle.polynomial.specs.Rings.{in_ring, Within};
ghost use Rattle.polynomial.specs.Views.{view};
ghost use Rattle.combination.specs.Checks.{check_element, Verdict};

use crate::combination::{CofactorSum, in_table};
use crate::table::CofactorTable;
use fault::{Fault, Place, TableFault};
use field::Field;
use order::MonomialOrder;
use polynomial::{Family, Polynomial, TableSize, Term, are_equal};
use std::alloc::{AllocError, Global};

// An offered basis element: its own table, one table with the cofactors, and how many terms each cofactor has. Flat tables are the layout at
// the boundary.
#[derive(Clone, Copy, PartialEq, Eq, Debug)]
pub struct Offered<'a> {
    pub table: &'a [u16],
    pub cofactors: &'a [u16],
    pub counts: &'a [u16],
}

#[derive(Drop)]
pub struct ElementCheck {
    element: Polynomial,
    combination: CofactorSum,
}

impl ElementCheck {
    // With all the memory that a check will ever take. Each type reserves its own parts, so `new` is written for each.
    pub fn new(heap: Global) -> Result<ElementCheck, AllocError>
        ensures { IfOk result (λ c. c.element.terms.items ≡ []) }
    {
        let element = Polynomial::new(heap)?;
        let combination = CofactorSum::new(heap)?;
        Ok(ElementCheck {
            element,
            combination,
        })
    }

    // The element that was checked last.
    pub fn element(&self) -> &[Term]
        ensures { result.now ≡ self.now.element.terms.items }
    {
        self.element.terms()
    }

    // Reads the element and its cofactors, sums, and compares; apart from `check`, so that the verdict is proved once.
    fn examine<F: Field, O: MonomialOrder>(
        &mut self,
        generators: &Family<F, O>,
        number: usize,
        offered: &Offered,
    ) -> Result<(), Fault>
        ensures value { answered result (view self.new.element.terms.items) ≡ in_ring check_element generators.now.ring.now (polynomials generators.now.list.now) number offered.now.table.now offered.now.cofactors.now offered.now.counts.now }
        ensures within { OnOk result (Within generators.now.ring.now (view self.new.element.terms.items)) }
        ensures few { OnOk result (length self.new.element.terms.items ≤ 32) }
    {
        in_table(
            Place::Element(number),
            generators
                .ring
                .read(TableSize::Short, offered.table, &mut self.element),
        )?;
        if self.element.terms().is_empty() {
            return Err(Fault::Table(TableFault::NoTerm(number)));
        }
        let table = CofactorTable::new(generators, offered.counts, offered.cofactors)?;
        self.combination.check_cofactors(&table)?;
        self.combination.add_cofactors(&table)?;
        if !are_equal(self.combination.sum.terms(), self.element.terms()) {
            return Err(Fault::NotTheSum(number));
        }
        Ok(())
    }

    // Whether the element of that number is the sum of cofactor × generator.
    pub fn check<F: Field, O: MonomialOrder>(
        &mut self,
        generators: &Family<F, O>,
        number: usize,
        offered: &Offered,
    ) -> Result<(), Fault>
        ensures value { answered result (view self.new.element.terms.items) ≡ in_ring check_element generators.now.ring.now (polynomials generators.now.list.now) number offered.now.table.now offered.now.cofactors.now offered.now.counts.now }
        ensures verdict { in_ring Verdict generators.now.ring.now (polynomials generators.now.list.now) number offered.now.table.now offered.now.cofactors.now offered.now.counts.now result }
        ensures within { OnOk result (Within generators.now.ring.now (view self.new.element.terms.items)) }
        ensures few { OnOk result (length self.new.element.terms.items ≤ 32) }
    {
        self.examine(generators, number, offered)
    }
}
