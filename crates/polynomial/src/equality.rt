// Whether two polynomials are the same, term by term.
ghost use Rattle.std.specs.Prelude.{◌≡◌};
ghost use Rattle.polynomial.specs.Equality.{equal};
ghost use Rattle.polynomial.specs.Views.{view};

use crate::term::Term;

pub fn are_equal(p: &[Term], q: &[Term]) -> bool
    ensures { result ≡ equal (view p.now) (view q.now) }
{
    p == q
}
