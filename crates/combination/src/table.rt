// The cofactors of the generators in one table, one behind the other.
ghost use Rattle.std.specs.Prelude.{◌≡◌, suc, ◌*◌, ◌≤◌, length, IfOk};
ghost use Rattle.polynomial.specs.Cuts.{total};
ghost use Rattle.polynomial.specs.Kept.{polynomials};
ghost use Rattle.combination.specs.Combinations.{forgotten, laid_out};

use fault::{Place, TableFault};
use field::Field;
use order::MonomialOrder;
use polynomial::{Family, Flaw};

// How many terms the cofactors have together.
fn count_terms(counts: &[u16]) -> usize
    requires { length counts.now ≤ 32 }
    ensures value { result ≡ total counts.now }
    ensures bound { result ≤ 65535 * 32 }
{
    counts.iter().map(|count| usize::from(*count)).sum()
}

// As many counts as generators, and just the numbers that these counts ask for.
#[derive(Drop)]
pub(crate) struct CofactorTable<'a, F: Field, O: MonomialOrder> {
    pub(crate) generators: &'a Family<'a, F, O>,
    pub(crate) counts: &'a [u16],
    pub(crate) numbers: &'a [u16],
    ghost counted: { length counts.now ≡ length (polynomials generators.now.list.now) },
    ghost whole: { length numbers.now ≡ total counts.now * suc generators.now.ring.now.variables },
}

impl<'a, F: Field, O: MonomialOrder> CofactorTable<'a, F, O> {
    pub(crate) fn new(
        generators: &'a Family<'a, F, O>,
        counts: &'a [u16],
        numbers: &'a [u16],
    ) -> Result<CofactorTable<'a, F, O>, TableFault>
        ensures done { forgotten result ≡ laid_out generators.now.ring.now.variables (polynomials generators.now.list.now) counts.now numbers.now }
        ensures held { IfOk result (λ t. (t.generators.now ≡ generators.now) × (t.counts.now ≡ counts.now) × (t.numbers.now ≡ numbers.now)) }
    {
        if counts.len() != generators.list.len() {
            return Err(TableFault::CofactorCount);
        }
        if numbers.len() != count_terms(counts) * (generators.ring.variables() + 1) {
            return Err(TableFault::Flawed(Place::Cofactor(0), Flaw::Length));
        }
        Ok(CofactorTable {
            generators,
            counts,
            numbers,
        })
    }
}
