// Refusals of the check of an element and of a field, by their five numbers: residues modulo 7, one variable, lex.
use checker::ElementChecker;
use combination::Offered;
use fault::{Fault, FaultNumbers};
use field::{Field, FieldFault, PrimeField};
use order::{Lex, MonomialOrder};
use std::test::Fail;

fn five(
    refusal: u16,
    layer: u16,
    subject: u16,
    first: usize,
    second: usize,
) -> Option<FaultNumbers> {
    Some(FaultNumbers {
        refusal,
        layer,
        subject,
        first,
        second,
    })
}

fn numbers(answer: Result<(), Fault>) -> Option<FaultNumbers> {
    answer.err().map(|fault| fault.numbers())
}

fn add<F: Field + Drop, O: MonomialOrder + Drop>(
    checker: &mut ElementChecker<F, O>,
    table: &[u16],
) -> Option<FaultNumbers> {
    numbers(checker.add_generator(table))
}

fn offer<F: Field + Drop, O: MonomialOrder + Drop>(
    checker: &mut ElementChecker<F, O>,
    number: usize,
    table: &[u16],
    cofactors: &[u16],
    counts: &[u16],
) -> Option<FaultNumbers> {
    let offered = Offered {
        table,
        cofactors,
        counts,
    };
    numbers(checker.check_element(number, &offered))
}

// Adds the generator 0 again and again: how many were taken before one was refused, and why it was.
fn fill<F: Field + Drop, O: MonomialOrder + Drop>(
    checker: &mut ElementChecker<F, O>,
) -> (usize, Option<FaultNumbers>) {
    // a call for each number, up to the first that is refused
    for taken in 0..40 {
        if let Some(refusal) = add(checker, &[]) {
            return (taken, Some(refusal));
        }
    }
    (40, None)
}

#[test]
fn thirty_two_generators(rt: HostRuntime) -> Result<(), Fail> {
    let mut checker = ElementChecker::new(rt.alloc(), PrimeField::new(7)?, Lex)?;
    let (taken, refusal) = fill(&mut checker);
    assert_eq!(rt; taken, 32);
    assert_eq!(rt; refusal, five(3, 4, 0, 0, 0));
    Ok(())
}

#[test]
fn tables(rt: HostRuntime) -> Result<(), Fail> {
    let field = PrimeField::new(7)?;
    let mut checker = ElementChecker::new(rt.alloc(), field, Lex)?;
    assert_eq!(rt; add(&mut checker, &[1, 1, 5]), five(4, 2, 1, 0, 0));
    assert_eq!(rt; add(&mut checker, &[1; 66]), five(5, 2, 1, 0, 0));
    assert_eq!(rt; add(&mut checker, &[0, 300]), five(6, 2, 1, 0, 0));
    assert_eq!(rt; add(&mut checker, &[1, 2, 7, 1]), five(6, 2, 1, 0, 1));
    assert_eq!(rt; add(&mut checker, &[1, 256]), five(7, 2, 1, 0, 0));
    assert_eq!(rt; add(&mut checker, &[1, 255, 1, 255]), five(8, 2, 1, 0, 1));
    assert_eq!(rt; add(&mut checker, &[]), None);
    Ok(())
}

#[test]
fn elements(rt: HostRuntime) -> Result<(), Fail> {
    let field = PrimeField::new(7)?;
    let mut checker = ElementChecker::new(rt.alloc(), field, Lex)?;
    assert_eq!(rt; add(&mut checker, &[1, 1, 5, 0]), None);
    assert_eq!(rt; offer(&mut checker, 3, &[1], &[], &[]), five(4, 2, 2, 3, 0));
    assert_eq!(rt; offer(&mut checker, 3, &[], &[], &[]), five(9, 2, 2, 3, 0));
    assert_eq!(rt;
        offer(&mut checker, 3, &[1, 0], &[], &[]),
        five(10, 2, 0, 0, 0)
    );
    assert_eq!(rt;
        offer(&mut checker, 3, &[1, 0], &[1, 0, 1], &[1]),
        five(4, 2, 3, 0, 0)
    );
    assert_eq!(rt;
        offer(&mut checker, 3, &[1, 0], &[1, 1, 8, 0], &[2]),
        five(6, 2, 3, 0, 1)
    );
    assert_eq!(rt;
        offer(&mut checker, 3, &[1, 0], &[1, 255], &[1]),
        five(11, 3, 3, 0, 0)
    );
    assert_eq!(rt;
        offer(&mut checker, 3, &[1, 0], &[1, 0], &[1]),
        five(13, 4, 2, 3, 0)
    );
    assert_eq!(rt; offer(&mut checker, 3, &[1, 1, 5, 0], &[1, 0], &[1]), None);
    Ok(())
}

#[test]
fn fields(rt: HostRuntime) {
    assert_eq!(rt;
        Some(Fault::Field(FieldFault::UnlistedSize).numbers()),
        five(17, 1, 0, 0, 0)
    );
}

// x² + x − 2 and x² − 3x + 2 have the combination x − 1 with the cofactors ¼ and −¼: a textbook's example, modulo 7 and modulo 11.
#[test]
fn textbook_combination(rt: HostRuntime) -> Result<(), Fail> {
    let mut by_7 = ElementChecker::new(rt.alloc(), PrimeField::new(7)?, Lex)?;
    assert_eq!(rt; add(&mut by_7, &[1, 2, 1, 1, 5, 0]), None);
    assert_eq!(rt; add(&mut by_7, &[1, 2, 4, 1, 2, 0]), None);
    assert_eq!(rt;
        offer(&mut by_7, 0, &[1, 1, 6, 0], &[2, 0, 5, 0], &[1, 1]),
        None
    );
    let mut by_11 = ElementChecker::new(rt.alloc(), PrimeField::new(11)?, Lex)?;
    assert_eq!(rt; add(&mut by_11, &[1, 2, 1, 1, 9, 0]), None);
    assert_eq!(rt; add(&mut by_11, &[1, 2, 8, 1, 2, 0]), None);
    assert_eq!(rt;
        offer(&mut by_11, 0, &[1, 1, 10, 0], &[3, 0, 8, 0], &[1, 1]),
        None
    );
    Ok(())
}
