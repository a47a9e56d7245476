// Which monomials the orders compare, and what the limits on them are.
ghost use Rattle.std.specs.Prelude.{◌≡◌};
ghost use Rattle.order.specs.Monomials.{small};
ghost use Rattle.order.specs.Orders.{comparable};

pub const MOST_VARIABLES: usize = 24;

pub const MOST_EXPONENT: u16 = 255;

pub(crate) fn are_comparable(a: &[u16], b: &[u16]) -> bool
    ensures { result ≡ comparable a.now b.now }
{
    a.len() == b.len() && a.len() <= MOST_VARIABLES && is_small(a) && is_small(b)
}

// Whether no exponent passes 255.
pub fn is_small(monomial: &[u16]) -> bool
    ensures { result ≡ small monomial.now }
{
    // goes on to the end, so that many exponents are tested at a time: every comparison comes through here
    monomial
        .iter()
        .fold(true, |low, exponent| low & (*exponent <= MOST_EXPONENT))
}
