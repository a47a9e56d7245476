// Comparing monomials by degree.
ghost use Rattle.std.specs.Prelude.{◌≡◌, ◌≤◌, length};
ghost use Rattle.order.specs.Listed.{degree, by_degree};

use std::cmp::Ordering;

pub(crate) fn compare_degrees(a: &[u16], b: &[u16]) -> Ordering
    requires { (length a.now ≤ 24) × (length b.now ≤ 24) }
    ensures { result ≡ by_degree a.now b.now }
{
    degree(a).cmp(&degree(b))
}

// The sum of at most 24 numbers of 16 bits has at most 32.
fn degree(monomial: &[u16]) -> u32
    requires { length monomial.now ≤ 24 }
    ensures { result ≡ degree monomial.now }
{
    monomial.iter().map(|exponent| u32::from(*exponent)).sum()
}
