// Polynomials in some variables over a field, ordered by a monomial order.
ghost use Rattle.std.specs.Prelude.{◌≤◌};
ghost use Rattle.polynomial.specs.Lawful.{Lawful};

use field::Field;
use order::MonomialOrder;

mod codes;
mod methods;
mod sums;
mod table;
mod variables;

#[derive(Drop)]
pub struct Ring<F: Field, O: MonomialOrder> {
    pub(crate) field: F,
    pub(crate) order: O,
    pub(crate) variables: usize,
    ghost some: { 1 ≤ variables },
    ghost few: { variables ≤ 24 },
    ghost lawful: { ∥ Lawful (F.arithmetic field) (O.comparison order) ∥₁ },
}
