// The sum of cofactor × generator, from one table in which the cofactors lie one behind the other.
ghost use Rattle.std.specs.Prelude.{◌≡◌, ◌<◌, ◌≤◌, [], length, Ok, slice_index_or};
ghost use Rattle.polynomial.specs.Cuts.{cut};
ghost use Rattle.polynomial.specs.Kept.{polynomials};
ghost use Rattle.polynomial.specs.Results.{because, answered};
ghost use Rattle.polynomial.specs.Rings.{in_ring, over, Within};
ghost use Rattle.polynomial.specs.Views.{view};
ghost use Rattle.fault.specs.declared.fault.TableFault.TheVariants.{Flawed};
ghost use Rattle.combination.specs.Combinations.{stopped, sizes, read_cofactor, read_cofactors, forgotten, add_terms, sum_cofactor, sum_cofactors};

use crate::table::CofactorTable;
use fault::{ArithmeticFault, Fault, Place, TableFault, Work};
use field::Field;
use order::MonomialOrder;
use polynomial::{Accumulator, Family, Flaw, Limit, Multiple, Polynomial, Ring, TableSize, Term};
use std::alloc::{AllocError, Global};

// Whose table it was. A flaw does not know its place, so this is no `From`.
pub fn in_table(place: Place, read: Result<(), Flaw>) -> Result<(), TableFault>
    ensures { result ≡ because (Flawed place) read }
{
    read.map_err(|flaw| TableFault::Flawed(place, flaw))
}

// What was being done. A limit does not know the work, so this is no `From`.
pub fn in_work(work: Work, step: Result<(), Limit>) -> Result<(), ArithmeticFault>
    ensures { result ≡ because (stopped work) step }
{
    step.map_err(|limit| ArithmeticFault { work, limit })
}

// Adds the product of a generator and each term of its cofactor, the highest first, one step each. That cofactor, generator and sum are
// polynomials of the ring is asked in clauses, since a type cannot name the value of a ring.
fn add_terms<F: Field, O: MonomialOrder>(
    ring: &Ring<F, O>,
    number: usize,
    cofactor: &[Term],
    generator: &[Term],
    sum: &mut Accumulator,
) -> Result<(), ArithmeticFault>
    requires cofactor { Within ring.now (view cofactor.now) }
    requires generator { Within ring.now (view generator.now) }
    requires few { length generator.now ≤ 512 }
    requires sum { Within ring.now (view sum.old.sum.terms.items) }
    ensures value { answered result (view sum.new.sum.terms.items) ≡ add_terms (over ring.now) number 0 (view cofactor.now) (view generator.now) (view sum.old.sum.terms.items) }
    ensures within { Within ring.now (view sum.new.sum.terms.items) }
{
    for (term, factor) in cofactor.iter().enumerate() {
        let product = Multiple {
            ring,
            factor: *factor,
            polynomial: generator,
        };
        in_work(Work::CofactorTerm(number, term), sum.add(0, &product))?;
    }
    Ok(())
}

// The sum of cofactor × generator, and the cofactor that was read last. Memory holds one cofactor at a time, so each is read
// once to be checked and once more to be added.
#[derive(Drop)]
pub(crate) struct CofactorSum {
    pub(crate) cofactor: Polynomial,
    pub(crate) sum: Accumulator,
}

impl CofactorSum {
    // With all the memory that a sum will ever take.
    pub(crate) fn new(heap: Global) -> Result<CofactorSum, AllocError> {
        let cofactor = Polynomial::new(heap)?;
        let sum = Accumulator::new(heap)?;
        Ok(CofactorSum { cofactor, sum })
    }

    // Reads the cofactor of that number.
    fn read_cofactor<F: Field, O: MonomialOrder>(
        &mut self,
        ring: &Ring<F, O>,
        number: usize,
        part: &[u16],
    ) -> Result<(), TableFault>
        ensures value { answered result (view self.new.cofactor.terms.items) ≡ in_ring read_cofactor ring.now number part.now }
        ensures sum { self.new.sum ≡ self.old.sum }
    {
        in_table(
            Place::Cofactor(number),
            ring.read(TableSize::Short, part, &mut self.cofactor),
        )
    }

    // Whether each cofactor's part of the table reads, from the first on. The parts differ in length: no iterator of the
    // library cuts them.
    pub(crate) fn check_cofactors<F: Field, O: MonomialOrder>(
        &mut self,
        table: &CofactorTable<F, O>,
    ) -> Result<(), TableFault>
        ensures { result ≡ forgotten (in_ring read_cofactors table.now.generators.now.ring.now 0 (cut (sizes table.now.generators.now.ring.now.variables table.now.counts.now) table.now.numbers.now)) }
    {
        let ring = table.generators.ring;
        let stride = ring.variables() + 1;
        let mut unread = table.numbers;
        for (number, count) in table.counts.iter().enumerate() {
            let (part, later) = unread.split_at(usize::from(*count) * stride);
            self.read_cofactor(ring, number, part)?;
            unread = later;
        }
        Ok(())
    }

    // Adds the product of one cofactor, from its part of the table, and its generator.
    fn add_cofactor<F: Field, O: MonomialOrder>(
        &mut self,
        generators: &Family<F, O>,
        number: usize,
        part: &[u16],
    ) -> Result<(), Fault>
        requires known { number < length (polynomials generators.now.list.now) }
        requires sum { Within generators.now.ring.now (view self.old.sum.sum.terms.items) }
        ensures value { answered result (view self.new.sum.sum.terms.items) ≡ in_ring sum_cofactor generators.now.ring.now number part.now (slice_index_or (polynomials generators.now.list.now) number []) (view self.old.sum.sum.terms.items) }
        ensures within { Within generators.now.ring.now (view self.new.sum.sum.terms.items) }
    {
        let ring = generators.ring;
        self.read_cofactor(ring, number, part)?;
        let generator = generators.get(number).unwrap();
        add_terms(
            ring,
            number,
            self.cofactor.terms(),
            generator,
            &mut self.sum,
        )?;
        Ok(())
    }

    // The sum of all cofactors, each from its part of the table, times their generators, from 0. Its loop cuts parts as the one above does;
    // what is done with a part differs in what it may change, so that a closure in common would be longer than the loop.
    pub(crate) fn add_cofactors<F: Field, O: MonomialOrder>(
        &mut self,
        table: &CofactorTable<F, O>,
    ) -> Result<(), Fault>
        requires checked { forgotten (in_ring read_cofactors table.now.generators.now.ring.now 0 (cut (sizes table.now.generators.now.ring.now.variables table.now.counts.now) table.now.numbers.now)) ≡ Ok tt }
        ensures { answered result (view self.new.sum.sum.terms.items) ≡ in_ring sum_cofactors table.now.generators.now.ring.now (cut (sizes table.now.generators.now.ring.now.variables table.now.counts.now) table.now.numbers.now) (polynomials table.now.generators.now.list.now) }
    {
        self.sum.clear();
        let stride = table.generators.ring.variables() + 1;
        let mut rest = table.numbers;
        for (number, count) in table.counts.iter().enumerate() {
            let (part, later) = rest.split_at(usize::from(*count) * stride);
            self.add_cofactor(table.generators, number, part)?;
            rest = later;
        }
        Ok(())
    }
}
