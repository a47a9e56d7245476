// How a ring is made and looked at.
ghost use Rattle.std.specs.Prelude.{◌≡◌};

use crate::ring::Ring;
use field::Field;
use order::MonomialOrder;

impl<F: Field, O: MonomialOrder> Ring<F, O> {
    // With one variable until told otherwise.
    pub fn new(field: F, order: O) -> Ring<F, O>
        ensures field { result.field ≡ field }
        ensures order { result.order ≡ order }
        ensures variables { result.variables ≡ 1 }
    {
        Ring {
            field,
            order,
            variables: 1,
        }
    }

    pub fn variables(&self) -> usize
        ensures { result ≡ self.now.variables }
    {
        self.variables
    }

    pub fn field(&self) -> &F
        ensures { result.now ≡ self.now.field }
    {
        &self.field
    }
}
