// Polynomials one behind the other, in memory reserved once: at most 32, of at most 32 terms each.
ghost use Rattle.std.specs.Prelude.{◌≡◌, ◌≤◌, true, length, vec_capacity};
ghost use Rattle.polynomial.specs.Cuts.{total, each_short};

use crate::term::Term;

mod methods;

pub const MOST_POLYNOMIALS: usize = 32;

pub const MOST_KEPT_TERMS: usize = 32;

// The terms of all, and beside them how many each has, and no Vec of Vecs: the memory is fixed, one allocation of each at `new`.
#[derive(Drop)]
pub struct PolynomialList {
    terms: Vec<Term>,
    counts: Vec<usize>,
    ghost terms_room: { 1024 ≤ vec_capacity terms },
    ghost counts_room: { 32 ≤ vec_capacity counts },
    ghost few: { length counts.items ≤ 32 },
    ghost short: { each_short counts.items ≡ true },
    ghost whole: { total counts.items ≡ length terms.items },
}
