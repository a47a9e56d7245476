// A monomial order: how monomials in equally many variables stand to each other.
ghost use Rattle.std.specs.Prelude.{◌≡◌, ℕ};
ghost use Rattle.order.specs.Orders.{Compare, OrderLaws, compared};

use std::cmp::Ordering;

pub trait MonomialOrder {
    // What an implementation means, for every number of variables and exponents of any size.
    ghost comparison: { Self → Compare };

    // Each order tests `are_comparable` itself: a body here would need a second method, which only comparable monomials could be handed to.
    fn compare(&self, a: &[u16], b: &[u16]) -> Option<Ordering>
        ensures { result ≡ compared (comparison self.now) a.now b.now };

    ghost lawful: { (o : Self) (n : ℕ) → OrderLaws n (comparison o) };
}
