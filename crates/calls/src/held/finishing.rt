// The divisions of a finish: every generator, and then the S-polynomial of every two basis elements.
ghost use Rattle.std.specs.Prelude.{◌≡◌, ◌<◌, [], length, slice_index_or};
ghost use Rattle.ideal.specs.Rings.{ring};
ghost use Rattle.polynomial.specs.Rings.{arithmetic_of, comparison_of};
ghost use Rattle.division.specs.Elements.{elements};
ghost use Rattle.division.specs.Limits.{division};
ghost use Rattle.fault.specs.declared.fault.Work.TheVariants.{Generator as Dividing};
ghost use Rattle.fault.specs.declared.fault.Fault.TheVariants.{GeneratorLeft};
ghost use Rattle.run.specs.Finishing.{vanish, generators_vanish, pair_vanishes, all_pairs_vanish};
ghost use Rattle.calls.specs.Shown.{shown, Same};
ghost use Rattle.calls.specs.Pairs.{left_over, all_vanish};

use crate::held::Checker;
use combination::in_work;
use division::Pair;
use fault::{Fault, Work};
use field::Field;
use order::MonomialOrder;
use polynomial::Family;

impl<F: Field + Drop, O: MonomialOrder + Drop> Checker<F, O> {
    // Divides the generator of that number, which must leave 0. An index is asked to be in range, as every index is. The family is made here and in each division, since a method that lends it
    // would lend the whole checker.
    fn divide_generator(&mut self, number: usize) -> Result<(), Fault>
        requires { number < length (shown self.old).generators }
        ensures value { result ≡ vanish (Dividing number) (GeneratorLeft number) (division (ring (arithmetic_of self.old.check.ring) (shown self.old).variables (comparison_of self.old.check.ring)) (shown self.old).variables (elements (shown self.old).basis) (slice_index_or (shown self.old).generators number [])) }
        ensures same { Same self.old self.new }
    {
        let basis = Family {
            ring: self.check.ring(),
            list: &self.basis,
        };
        let generator = self.check.generators().get(number).unwrap();
        in_work(
            Work::Generator(number),
            self.division.divide(&basis, generator),
        )?;
        if !self.division.remainder().is_empty() {
            return Err(Fault::GeneratorLeft(number));
        }
        Ok(())
    }

    pub(crate) fn divide_generators(&mut self) -> Result<(), Fault>
        ensures value { result ≡ generators_vanish (arithmetic_of self.old.check.ring) (shown self.old).variables (comparison_of self.old.check.ring) (shown self.old).basis 0 (shown self.old).generators }
        ensures same { Same self.old self.new }
    {
        // by number, which a fault tells: the checker is changed on the way, so no iterator can lend from it
        for number in 0..self.check.generators().len() {
            self.divide_generator(number)?;
        }
        Ok(())
    }

    // Whether the S-polynomial of the basis elements of these numbers leaves a remainder: a question, so it answers a bool.
    fn is_pair_left(&mut self, j: usize, l: usize) -> Result<bool, Fault>
        requires first { j < length (shown self.old).basis }
        requires second { l < length (shown self.old).basis }
        ensures value { left_over j l result ≡ pair_vanishes (arithmetic_of self.old.check.ring) (shown self.old).variables (comparison_of self.old.check.ring) (shown self.old).basis j (slice_index_or (shown self.old).basis j []) l (slice_index_or (shown self.old).basis l []) }
        ensures same { Same self.old self.new }
    {
        let basis = Family {
            ring: self.check.ring(),
            list: &self.basis,
        };
        let pair = Pair {
            ring: self.check.ring(),
            first: basis.get(j).unwrap(),
            second: basis.get(l).unwrap(),
        };
        let formed = self.division.load_s_polynomial(&pair);
        in_work(Work::Pair(j, l), formed)?;
        let divided = self.division.reduce(&basis);
        in_work(Work::Pair(j, l), divided)?;
        Ok(!self.division.remainder().is_empty())
    }

    // The pairs (0,1), (0,2) .. (1,2) .. up to the first that leaves a remainder.
    pub(crate) fn divide_pairs(&mut self) -> Result<(), Fault>
        ensures value { result ≡ all_pairs_vanish (arithmetic_of self.old.check.ring) (shown self.old).variables (comparison_of self.old.check.ring) (shown self.old).basis 0 (shown self.old).basis }
        ensures same { Same self.old self.new }
    {
        let count = self.basis.len();
        // by numbers, which a fault tells, for the same reason; the loops are left by a label with the pair that fails
        let failing = 'pairs: {
            for j in 0..count {
                for l in j + 1..count {
                    if self.is_pair_left(j, l)? {
                        break 'pairs Some((j, l));
                    }
                }
            }
            None
        };
        match failing {
            Some((j, l)) => Err(Fault::PairLeft(j, l)),
            None => Ok(()),
        }
    }

    pub(crate) fn divide_all(&mut self) -> Result<(), Fault>
        ensures value { result ≡ all_vanish (arithmetic_of self.old.check.ring) (shown self.old).variables (comparison_of self.old.check.ring) (shown self.old).generators (shown self.old).basis }
        ensures same { Same self.old self.new }
    {
        self.divide_generators()?;
        self.divide_pairs()
    }
}
