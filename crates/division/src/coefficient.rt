// Coefficients by which leading terms cancel. What the field does not answer is passed on.
ghost use Rattle.std.specs.Prelude.{◌≡◌};
ghost use Rattle.field.specs.Fields.{inverted};
ghost use Rattle.division.specs.Coefficients.{opposite_inverse, opposite_quotient};

use field::Field;

// The opposite of 1 / b.
pub(crate) fn opposite_inverse<F: Field>(field: &F, b: u16) -> Option<u16>
    ensures { result ≡ inverted (F.arithmetic field.now).size (opposite_inverse (F.arithmetic field.now)) b }
{
    let inverse = field.inverse(b)?;
    field.opposite(inverse)
}

// The opposite of a / b.
pub(crate) fn opposite_quotient<F: Field>(field: &F, a: u16, b: u16) -> Option<u16>
    ensures { result ≡ opposite_quotient (F.arithmetic field.now) a b }
{
    let inverse = field.inverse(b)?;
    let quotient = field.product(a, inverse)?;
    field.opposite(quotient)
}
