// A polynomial in memory reserved once, for 512 terms.
ghost use Rattle.std.specs.Prelude.{◌≤◌, vec_capacity};

use crate::term::Term;

mod methods;

pub const MOST_TERMS: usize = 512;

#[derive(Drop)]
pub struct Polynomial {
    pub(crate) terms: Vec<Term>,
    ghost room: { 512 ≤ vec_capacity terms },
}
