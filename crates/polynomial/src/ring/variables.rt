// How the number of a ring's variables is set.
ghost use Rattle.std.specs.Prelude.{◌≡◌, ◌&&◌, if◌then◌else◌, nat_le};
ghost use Rattle.polynomial.specs.Results.{check};

use crate::flaw::VariableCountError;
use crate::ring::Ring;
use field::Field;
use order::{MOST_VARIABLES, MonomialOrder};

impl<F: Field, O: MonomialOrder> Ring<F, O> {
    // Sets the number of variables, if it is from 1 to 24; otherwise nothing changes.
    pub fn set_variables(&mut self, variables: usize) -> Result<(), VariableCountError>
        ensures done { result ≡ check (nat_le 1 variables && nat_le variables 24) (record {}) }
        ensures variables { self.new.variables ≡ (if nat_le 1 variables && nat_le variables 24 then variables else self.old.variables) }
        ensures field { self.new.field ≡ self.old.field }
        ensures order { self.new.order ≡ self.old.order }
    {
        if variables < 1 || variables > MOST_VARIABLES {
            return Err(VariableCountError);
        }
        self.variables = variables;
        Ok(())
    }
}
