// Holds the generators, and checks offered basis elements against them.
ghost use Rattle.std.specs.Prelude.{◌≡◌, ◌≤◌, ◌&&◌, [], length, nat_le, IfOk, OnOk, if◌then◌else◌};
ghost use Rattle.ideal.specs.Lists.{Each};
ghost use Rattle.polynomial.specs.Kept.{polynomials};
ghost use Rattle.polynomial.specs.Propositions.{Family-prop};
ghost use Rattle.polynomial.specs.Results.{answered, check};
ghost use Rattle.polynomial.specs.Rings.{in_ring, Within};
ghost use Rattle.polynomial.specs.Views.{view};
ghost use Rattle.combination.specs.Checks.{check_element, Verdict};
ghost use Rattle.combination.specs.Combinations.{forgotten};
ghost use Rattle.checker.specs.Checks.{after, add_generator};

use combination::{ElementCheck, Offered, in_table};
use fault::{Fault, Place};
use field::Field;
use order::MonomialOrder;
use polynomial::{
    Family, MOST_POLYNOMIALS, Polynomial, PolynomialList, Ring, TableSize, Term, VariableCountError,
};
use std::alloc::{AllocError, Global};

// A ring, generators that are polynomials of it, and what checks an offered element against them.
#[derive(Drop)]
pub struct ElementChecker<F: Field, O: MonomialOrder> {
    ring: Ring<F, O>,
    generators: PolynomialList,
    check: ElementCheck,
    // the generator that was read last
    reading: Polynomial,
    ghost within: { Each (Within ring) (polynomials generators) } by { Family-prop ring (polynomials generators) },
}

impl<F: Field + Drop, O: MonomialOrder + Drop> ElementChecker<F, O> {
    // No generators yet, one variable, and all the memory that a call will ever take.
    pub fn new(heap: Global, field: F, order: O) -> Result<ElementChecker<F, O>, AllocError>
        ensures { IfOk result (λ c. (polynomials c.generators ≡ []) × (c.ring.field ≡ field) × (c.ring.order ≡ order) × (c.ring.variables ≡ 1)) }
    {
        let generators = PolynomialList::new(heap)?;
        let check = ElementCheck::new(heap)?;
        let reading = Polynomial::new(heap)?;
        let ring = Ring::new(field, order);
        Ok(ElementChecker {
            ring,
            generators,
            check,
            reading,
        })
    }

    pub fn ring(&self) -> &Ring<F, O>
        ensures { result.now ≡ self.now.ring }
    {
        &self.ring
    }

    pub fn generators(&self) -> &PolynomialList
        ensures { result.now ≡ self.now.generators }
    {
        &self.generators
    }

    // The element that was read last: after a check that passed, the element that passed.
    pub fn element(&self) -> &[Term]
        ensures { result.now ≡ self.now.check.element.terms.items }
    {
        self.check.element()
    }

    // Forgets the generators and takes so many variables, if they are from 1 to 24; otherwise nothing changes.
    pub fn begin(&mut self, variables: usize) -> Result<(), VariableCountError>
        ensures done { result ≡ check (nat_le 1 variables && nat_le variables 24) (record {}) }
        ensures variables { self.new.ring.variables ≡ (if nat_le 1 variables && nat_le variables 24 then variables else self.old.ring.variables) }
        ensures generators { polynomials self.new.generators ≡ (if nat_le 1 variables && nat_le variables 24 then [] else polynomials self.old.generators) }
        ensures field { self.new.ring.field ≡ self.old.ring.field }
        ensures order { self.new.ring.order ≡ self.old.ring.order }
    {
        self.ring.set_variables(variables)?;
        self.generators.clear();
        Ok(())
    }

    // One generator more, from its table.
    pub fn add_generator(&mut self, table: &[u16]) -> Result<(), Fault>
        ensures value { (result, polynomials self.new.generators) ≡ after (polynomials self.old.generators) (in_ring add_generator self.old.ring (polynomials self.old.generators) table.now) }
        ensures ring { self.new.ring ≡ self.old.ring }
    {
        let number = self.generators.len();
        if number >= MOST_POLYNOMIALS {
            return Err(Fault::Full);
        }
        in_table(
            Place::Generator(number),
            self.ring.read(TableSize::Short, table, &mut self.reading),
        )?;
        self.generators.push(self.reading.terms()).unwrap();
        Ok(())
    }

    // Whether the element of that number is the sum of cofactor × generator.
    pub fn check_element(&mut self, number: usize, offered: &Offered) -> Result<(), Fault>
        ensures value { result ≡ forgotten (in_ring check_element self.old.ring (polynomials self.old.generators) number offered.now.table.now offered.now.cofactors.now offered.now.counts.now) }
        ensures verdict { in_ring Verdict self.old.ring (polynomials self.old.generators) number offered.now.table.now offered.now.cofactors.now offered.now.counts.now result }
        ensures element { answered result (view self.new.check.element.terms.items) ≡ in_ring check_element self.old.ring (polynomials self.old.generators) number offered.now.table.now offered.now.cofactors.now offered.now.counts.now }
        ensures few { OnOk result (length self.new.check.element.terms.items ≤ 32) }
        ensures ring { self.new.ring ≡ self.old.ring }
        ensures generators { self.new.generators ≡ self.old.generators }
    {
        let family = Family {
            ring: &self.ring,
            list: &self.generators,
        };
        self.check.check(&family, number, offered)
    }
}
