// The limits of a step, told by the call that meets them: residues modulo 7, lex, two or three variables.
use crate::held::Checker;
use crate::tests::{five, offer, refusal};
use field::{Field, PrimeField};
use order::{Lex, MonomialOrder};
use std::alloc::{AllocError, Global};
use std::test::Fail;

// A checker that holds one generator, which is the one basis element too, in so many variables.
fn hold_one<F: Field + Drop, O: MonomialOrder + Drop>(
    checker: &mut Checker<F, O>,
    variables: usize,
    table: &[u16],
    one: &[u16],
) -> Result<(), Fail> {
    checker.open(variables)?;
    checker.rule(table)?;
    checker.close()?;
    match offer(checker, table, one, &[1]) {
        None => Ok(()),
        Some(_) => Err(Fail::new("a generator is no element")),
    }
}

// a³¹ + .. + a + 1, or the same in b.
fn powers(heap: Global, in_a: bool) -> Result<Vec<u16>, AllocError> {
    let mut table = Vec::new(heap);
    // a term for each number
    for i in 0..32u16 {
        let exponent = 31 - i;
        if in_a {
            table.extend_from_slice(&[1, exponent, 0])?;
        } else {
            table.extend_from_slice(&[1, 0, exponent])?;
        }
    }
    Ok(table)
}

// No two products share a monomial, so 16 steps make 512 terms.
#[test]
fn sums_of_cofactors(rt: HostRuntime) -> Result<(), Fail> {
    let mut checker = Checker::new(rt.alloc(), PrimeField::new(7)?, Lex)?;
    let generator = powers(rt.alloc(), true)?;
    let cofactor = powers(rt.alloc(), false)?;
    checker.open(2)?;
    checker.rule(&[])?;
    checker.rule(generator.as_slice())?;
    checker.close()?;
    assert_eq!(rt;
        offer(&mut checker, &[1, 0, 0], cofactor.as_slice(), &[0, 32]),
        five(12, 3, 3, 1, 16)
    );
    assert_eq!(rt;
        offer(&mut checker, &[1, 0, 0], &[1, 255, 0, 1, 0, 0], &[0, 2]),
        five(11, 3, 3, 1, 0)
    );
    assert_eq!(rt;
        offer(&mut checker, &[1, 0, 0], &[1, 224, 0, 1, 0, 225], &[0, 2]),
        five(13, 4, 2, 0, 0)
    );
    Ok(())
}

// Divided by a + b²⁰⁰, a² comes to b⁴⁰⁰.
#[test]
fn dividing_a_generator(rt: HostRuntime) -> Result<(), Fail> {
    let mut checker = Checker::new(rt.alloc(), PrimeField::new(7)?, Lex)?;
    let element = [1, 1, 0, 1, 0, 200];
    checker.open(2)?;
    checker.rule(&element)?;
    checker.rule(&[1, 2, 0])?;
    checker.close()?;
    assert_eq!(rt; offer(&mut checker, &element, &[1, 0, 0], &[1, 0]), None);
    assert_eq!(rt; refusal(checker.finish()), five(11, 3, 1, 1, 0));
    Ok(())
}

// The S-polynomial of a²⁰⁰ + b²⁰⁰ and ab¹⁰⁰ has b³⁰⁰.
#[test]
fn forming_a_pair(rt: HostRuntime) -> Result<(), Fail> {
    let mut checker = Checker::new(rt.alloc(), PrimeField::new(7)?, Lex)?;
    let first = [1, 200, 0, 1, 0, 200];
    let second = [1, 1, 100];
    checker.open(2)?;
    checker.rule(&first)?;
    checker.rule(&second)?;
    checker.close()?;
    assert_eq!(rt; offer(&mut checker, &first, &[1, 0, 0], &[1, 0]), None);
    assert_eq!(rt; offer(&mut checker, &second, &[1, 0, 0], &[0, 1]), None);
    assert_eq!(rt; refusal(checker.finish()), five(11, 3, 5, 0, 1));
    Ok(())
}

// a and 511 terms in b and c, divided by a + bc + c: two terms for one.
#[test]
fn dividing_what_is_asked(rt: HostRuntime) -> Result<(), Fail> {
    let mut checker = Checker::new(rt.alloc(), PrimeField::new(7)?, Lex)?;
    hold_one(&mut checker, 2, &[1, 1, 0, 1, 0, 200], &[1, 0, 0])?;
    checker.finish()?;
    assert_eq!(rt;
        refusal(checker.question(&[1, 2, 0], &mut [])),
        five(11, 3, 4, 0, 0)
    );
    hold_one(
        &mut checker,
        3,
        &[1, 1, 0, 0, 1, 0, 1, 1, 1, 0, 0, 1],
        &[1, 0, 0, 0],
    )?;
    checker.finish()?;
    let mut table = Vec::new(rt.alloc());
    table.extend_from_slice(&[1, 1, 0, 0])?;
    // a term for each number
    for i in 0..511u16 {
        table.extend_from_slice(&[1, 0, 3 - i / 256, 255 - i % 256])?;
    }
    assert_eq!(rt;
        refusal(checker.question(table.as_slice(), &mut [])),
        five(12, 3, 4, 0, 0)
    );
    Ok(())
}
