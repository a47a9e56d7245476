// Tests of the calls through the library: every refusal by its five numbers, and whole runs.
use crate::held::Checker;
use combination::Offered;
use fault::{Fault, FaultNumbers};
use field::Field;
use order::MonomialOrder;

mod limits;
mod refusals;
mod runs;

fn five(
    refusal: u16,
    layer: u16,
    subject: u16,
    first: usize,
    second: usize,
) -> Option<FaultNumbers> {
    Some(FaultNumbers {
        refusal,
        layer,
        subject,
        first,
        second,
    })
}

// Why a call is refused, if it is.
fn refusal<T: Drop>(answer: Result<T, Fault>) -> Option<FaultNumbers> {
    answer.err().map(|fault| fault.numbers())
}

fn offer<F: Field + Drop, O: MonomialOrder + Drop>(
    checker: &mut Checker<F, O>,
    table: &[u16],
    cofactors: &[u16],
    counts: &[u16],
) -> Option<FaultNumbers> {
    let offered = Offered {
        table,
        cofactors,
        counts,
    };
    refusal(checker.offer(&offered))
}
