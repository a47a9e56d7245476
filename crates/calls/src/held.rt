// What a checker holds, in memory reserved once.
ghost use Rattle.calls.specs.Held.{Reached};

use checker::ElementChecker;
use division::Division;
use field::Field;
use order::MonomialOrder;
use polynomial::{Polynomial, PolynomialList};
use run::State;

mod asking;
mod calls;
mod finishing;
mod state;

// What is held is what some run of calls leads to, from a checker never opened.
#[derive(Drop)]
pub struct Checker<F: Field, O: MonomialOrder> {
    // the ring and the generators, and what checks an offered element against them
    check: ElementChecker<F, O>,
    basis: PolynomialList,
    state: State,
    division: Division,
    // what is asked about
    reading: Polynomial,
    ghost reached: { ∥ Reached check basis state ∥₁ },
}
