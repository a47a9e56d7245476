// Whole runs, over residues and over bits; refused calls in between, and a checker that is opened again.
use crate::call::Call;
use crate::held::Checker;
use crate::sequence::run_calls;
use crate::tests::{five, offer, refusal};
use combination::Offered;
use field::{BinaryField, Field, PrimeField};
use order::{Lex, MonomialOrder};
use std::test::Fail;

// Residues modulo 2: the generators ab and a + b + 1, and the elements a + b + 1 and b² + b.
const PRODUCT: [u16; 3] = [1, 1, 1];

const LINE: [u16; 9] = [1, 1, 0, 1, 0, 1, 1, 0, 0];

const SQUARE: [u16; 6] = [1, 0, 2, 1, 0, 1];

// Two variables of residues modulo 2: a² + a follows, and a + b does not.
const CONSOLE: [Call<'static>; 9] = [
    Call::Open(2),
    Call::Rule(&PRODUCT),
    Call::Rule(&LINE),
    Call::Close,
    Call::Offer(Offered {
        table: &LINE,
        cofactors: &[1, 0, 0],
        counts: &[0, 1],
    }),
    Call::Offer(Offered {
        table: &SQUARE,
        cofactors: &[1, 0, 0, 1, 0, 1],
        counts: &[1, 1],
    }),
    Call::Finish,
    Call::Question(&[1, 2, 0, 1, 1, 0]),
    Call::Question(&[1, 1, 0, 1, 0, 1]),
];

// The same with refused calls in between: the answers to the others stay.
const INTERRUPTED: [Call<'static>; 18] = [
    Call::Open(0),
    Call::Open(2),
    Call::Finish,
    Call::Rule(&PRODUCT),
    Call::Rule(&[1, 1]),
    Call::Rule(&LINE),
    Call::Open(25),
    Call::Close,
    Call::Rule(&PRODUCT),
    Call::Offer(Offered {
        table: &LINE,
        cofactors: &[1, 0, 0],
        counts: &[0, 1],
    }),
    Call::Offer(Offered {
        table: &SQUARE,
        cofactors: &[1, 0, 0],
        counts: &[0, 1],
    }),
    Call::Finish,
    Call::Offer(Offered {
        table: &SQUARE,
        cofactors: &[1, 0, 0, 1, 0, 1],
        counts: &[1, 1],
    }),
    Call::Finish,
    Call::Close,
    Call::Question(&[1, 2, 0, 1, 1, 0]),
    Call::Question(&[2, 0, 0]),
    Call::Question(&[1, 1, 0, 1, 0, 1]),
];

#[test]
fn residues(rt: HostRuntime) -> Result<(), Fail> {
    let mut left = [9; 4];
    let replies = run_calls(rt.alloc(), PrimeField::new(2)?, Lex, &CONSOLE, &mut left)?;
    let mut told = Vec::new(rt.alloc());
    for reply in &replies {
        told.push(reply.ok())?;
    }
    let expected = [
        Some(None),
        Some(None),
        Some(None),
        Some(None),
        Some(None),
        Some(None),
        Some(None),
        Some(Some(0)),
        Some(Some(1)),
    ];
    assert_eq!(rt; told.as_slice(), expected.as_slice());
    assert_eq!(rt; left, [1, 0, 0, 9]);
    Ok(())
}

#[test]
fn refused_calls_change_nothing(rt: HostRuntime) -> Result<(), Fail> {
    let mut left = [9; 4];
    let replies = run_calls(
        rt.alloc(),
        PrimeField::new(2)?,
        Lex,
        &INTERRUPTED,
        &mut left,
    )?;
    let mut told = Vec::new(rt.alloc());
    for reply in &replies {
        told.push(reply.ok())?;
    }
    let expected = [
        None,
        Some(None),
        None,
        Some(None),
        None,
        Some(None),
        None,
        Some(None),
        None,
        Some(None),
        None,
        None,
        Some(None),
        Some(None),
        None,
        Some(Some(0)),
        None,
        Some(Some(1)),
    ];
    assert_eq!(rt; told.as_slice(), expected.as_slice());
    assert_eq!(rt; left, [1, 0, 0, 9]);
    Ok(())
}

// Four codes, where t² = t + 1: by a² + ta, of which (t+1)a² + a is a multiple, a² is ta, and a² + ta follows.
#[test]
fn bits(rt: HostRuntime) -> Result<(), Fail> {
    let mut checker = Checker::new(rt.alloc(), BinaryField::new(4)?, Lex)?;
    let mut left = [9; 3];
    assert_eq!(rt; refusal(checker.rule(&[1, 2, 2, 1])), None);
    assert_eq!(rt; refusal(checker.close()), None);
    assert_eq!(rt;
        offer(&mut checker, &[3, 2, 2, 1], &[3, 0], &[1]),
        five(13, 4, 2, 0, 0)
    );
    assert_eq!(rt; offer(&mut checker, &[3, 2, 1, 1], &[3, 0], &[1]), None);
    assert_eq!(rt; refusal(checker.finish()), None);
    assert_eq!(rt; checker.question(&[1, 2], &mut left).ok(), Some(1));
    assert_eq!(rt; left, [2, 1, 9]);
    assert_eq!(rt; checker.question(&[1, 2, 2, 1], &mut left).ok(), Some(0));
    assert_eq!(rt; left, [2, 1, 9]);
    Ok(())
}

// Residues modulo 7: a + 5 by the cofactors 4 and 3a + 6; then the checker is opened again, and nothing of it is left.
#[test]
fn opened_again(rt: HostRuntime) -> Result<(), Fail> {
    let mut checker = Checker::new(rt.alloc(), PrimeField::new(7)?, Lex)?;
    let mut left = [9; 3];
    assert_eq!(rt; refusal(checker.rule(&[1, 3, 6, 2, 5, 1])), None);
    assert_eq!(rt; refusal(checker.rule(&[1, 2, 4, 1, 2, 0])), None);
    assert_eq!(rt; refusal(checker.close()), None);
    assert_eq!(rt;
        offer(&mut checker, &[1, 1, 5, 0], &[4, 0, 3, 1, 5, 0], &[1, 2]),
        five(13, 4, 2, 0, 0)
    );
    assert_eq!(rt;
        offer(&mut checker, &[1, 1, 5, 0], &[4, 0, 3, 1, 6, 0], &[1, 2]),
        None
    );
    assert_eq!(rt; refusal(checker.finish()), None);
    assert_eq!(rt; checker.question(&[1, 1], &mut left).ok(), Some(1));
    assert_eq!(rt; left, [2, 0, 9]);
    assert_eq!(rt; refusal(checker.open(2)), None);
    assert_eq!(rt;
        refusal(checker.question(&[], &mut left)),
        five(2, 4, 0, 0, 0)
    );
    assert_eq!(rt; refusal(checker.rule(&[1, 0, 1])), None);
    assert_eq!(rt; refusal(checker.close()), None);
    assert_eq!(rt; offer(&mut checker, &[1, 0, 1], &[1, 0, 0], &[1]), None);
    assert_eq!(rt; refusal(checker.finish()), None);
    assert_eq!(rt;
        checker.question(&[1, 1, 0, 3, 0, 2], &mut left).ok(),
        Some(1)
    );
    assert_eq!(rt; left, [1, 1, 0]);
    Ok(())
}
