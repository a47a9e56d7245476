// The calls.
ghost use Rattle.std.specs.Prelude.{◌≡◌, IfOk, OnErr};
ghost use Rattle.run.specs.Models.{fresh, Open, Rule, Close, Offer, Finish, Question};
ghost use Rattle.calls.specs.Shown.{shown, said, told, Stands, Promise};

use crate::held::Checker;
use crate::held::state::enter;
use crate::writing::write_terms;
use checker::ElementChecker;
use combination::Offered;
use division::Division;
use fault::{Fault, TableFault};
use field::Field;
use order::MonomialOrder;
use polynomial::{MOST_POLYNOMIALS, Polynomial, PolynomialList};
use run::{CallKind, State};
use std::alloc::{AllocError, Global};

impl<F: Field + Drop, O: MonomialOrder + Drop> Checker<F, O> {
    // Nothing held, in one variable, and all the memory that a call will ever take.
    pub fn new(heap: Global, field: F, order: O) -> Result<Checker<F, O>, AllocError>
        ensures stands { IfOk result (λ c. Stands c) }
        ensures fresh { IfOk result (λ c. (shown c ≡ fresh 1) × (c.check.ring.field ≡ field) × (c.check.ring.order ≡ order)) }
    {
        let check = ElementChecker::new(heap, field, order)?;
        let basis = PolynomialList::new(heap)?;
        let division = Division::new(heap)?;
        let reading = Polynomial::new(heap)?;
        Ok(Checker {
            check,
            basis,
            state: State::Generators,
            division,
            reading,
        })
    }

    // Begins again, with so many variables and nothing held.
    pub fn open(&mut self, variables: usize) -> Result<(), Fault>
        ensures { Promise self.old (Open variables) (said result) self.new }
    {
        // the state comes last: a refused number of variables leaves it
        self.check.begin(variables)?;
        self.basis.clear();
        enter(&mut self.state, CallKind::Open)
    }

    // One generator more, from its table.
    pub fn rule(&mut self, table: &[u16]) -> Result<(), Fault>
        ensures { Promise self.old (Rule table.now) (said result) self.new }
    {
        enter(&mut self.state, CallKind::Rule)?;
        self.check.add_generator(table)
    }

    // Ends the generators; basis elements can be offered.
    pub fn close(&mut self) -> Result<(), Fault>
        ensures { Promise self.old Close (said result) self.new }
    {
        enter(&mut self.state, CallKind::Close)
    }

    // One basis element more, if it is the sum of cofactor × generator.
    pub fn offer(&mut self, offered: &Offered) -> Result<(), Fault>
        ensures { Promise self.old (Offer offered.now.table.now offered.now.cofactors.now offered.now.counts.now) (said result) self.new }
    {
        enter(&mut self.state, CallKind::Offer)?;
        let number = self.basis.len();
        if number >= MOST_POLYNOMIALS {
            return Err(Fault::Full);
        }
        self.check.check_element(number, offered)?;
        self.basis.push(self.check.element()).unwrap();
        Ok(())
    }

    // Whether the basis is complete: every generator and the S-polynomial of every two basis elements must divide to 0. Then questions
    // are answered.
    pub fn finish(&mut self) -> Result<(), Fault>
        ensures { Promise self.old Finish (said result) self.new }
    {
        enter(&mut self.state, CallKind::Finish)?;
        self.divide_all()?;
        self.state = State::Passed;
        Ok(())
    }

    // Divides the polynomial of a table, writes the remainder at the start of the result table, and tells how many terms it has:
    // 0 says that the polynomial follows from the generators. A refused question leaves the result table.
    pub fn question(&mut self, table: &[u16], result_table: &mut [u16]) -> Result<usize, Fault>
        ensures promise { Promise self.old (Question table.now result_table.old) (told result result_table.new) self.new }
        ensures kept { OnErr result (result_table.new ≡ result_table.old) }
    {
        self.divide_question(table)?;
        let terms = self.division.remainder();
        if terms.len() * (self.check.ring().variables() + 1) > result_table.len() {
            return Err(Fault::Table(TableFault::NoRoom));
        }
        write_terms(terms, result_table);
        Ok(terms.len())
    }
}
