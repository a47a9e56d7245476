// A monomial in at most 24 variables, with exponents up to 255.
ghost use Rattle.std.specs.Prelude.{◌≡◌, ◌-◌, ◌≤◌, true, length, drop, replicate};
ghost use Rattle.order.specs.Monomials.{small};

mod divide;
mod methods;

pub use divide::multipliers;

// The exponents stand in the first `variables` places, and 0 in the others, so that equal monomials are equal arrays.
// An array with a length beside, and no Vec: the memory is fixed, and a monomial is copied.
#[derive(Clone, Copy, PartialEq, Eq, Debug)]
pub struct Monomial {
    exponents: [u16; 24],
    variables: usize,
    ghost few: { variables ≤ 24 },
    ghost full: { length exponents ≡ 24 },
    ghost low: { small exponents ≡ true },
    ghost zeros: { drop variables exponents ≡ replicate (24 - variables) 0 },
}
