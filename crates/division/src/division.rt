// A division on its way, in memory reserved once.
use polynomial::{Accumulator, Polynomial};

mod methods;
mod pair;

// What is left to divide, and the remainder so far.
#[derive(Drop)]
pub struct Division {
    dividend: Accumulator,
    remainder: Polynomial,
}
