// Monomials divided, and what two leading monomials are multiplied by.
use polynomial::{Monomial, multipliers};

// The exponents of a monomial in two variables.
fn two(m: &Monomial) -> Option<(u16, u16)> {
    match m.exponents() {
        [x, y] => Some((*x, *y)),
        _ => None,
    }
}

fn meet(a: &[u16], b: &[u16]) -> Option<((u16, u16), (u16, u16))> {
    let a = Monomial::from_exponents(a)?;
    let b = Monomial::from_exponents(b)?;
    let (left, right) = multipliers(&a, &b);
    Some((two(&left)?, two(&right)?))
}

fn divide(a: &[u16], b: &[u16]) -> Option<(u16, u16)> {
    let a = Monomial::from_exponents(a)?;
    let b = Monomial::from_exponents(b)?;
    let quotient = a.quotient(&b)?;
    two(&quotient)
}

// A textbook's pair: x³y² and x⁴y meet at x⁴y².
#[test]
fn textbook_multipliers(rt: HostRuntime) {
    assert_eq!(rt; meet(&[3, 2], &[4, 1]), Some(((1, 0), (0, 1))));
    assert_eq!(rt; divide(&[4, 2], &[3, 2]), Some((1, 0)));
    assert_eq!(rt; divide(&[3, 2], &[4, 1]), None);
}
