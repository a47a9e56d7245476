// Every refusal but 11 and 12, by its five numbers: residues, one variable, lex, where nothing else is said.
use crate::held::Checker;
use crate::tests::{five, offer, refusal};
use field::{Field, PrimeField};
use order::{Graded, Lex, MonomialOrder};
use std::test::Fail;

#[test]
fn variables(rt: HostRuntime) -> Result<(), Fail> {
    let mut checker = Checker::new(rt.alloc(), PrimeField::new(7)?, Lex)?;
    assert_eq!(rt; refusal(checker.open(0)), five(1, 4, 0, 0, 0));
    assert_eq!(rt; refusal(checker.open(1)), None);
    assert_eq!(rt; refusal(checker.open(24)), None);
    assert_eq!(rt; refusal(checker.open(25)), five(1, 4, 0, 0, 0));
    Ok(())
}

// No generators and no basis elements pass, so the three states are one call apart.
#[test]
fn states(rt: HostRuntime) -> Result<(), Fail> {
    let now = five(2, 4, 0, 0, 0);
    let mut checker = Checker::new(rt.alloc(), PrimeField::new(7)?, Lex)?;
    assert_eq!(rt; offer(&mut checker, &[1, 0], &[], &[]), now);
    assert_eq!(rt; refusal(checker.finish()), now);
    assert_eq!(rt; refusal(checker.question(&[], &mut [])), now);
    assert_eq!(rt; refusal(checker.close()), None);
    assert_eq!(rt; refusal(checker.rule(&[])), now);
    assert_eq!(rt; refusal(checker.close()), now);
    assert_eq!(rt; refusal(checker.question(&[], &mut [])), now);
    assert_eq!(rt; refusal(checker.finish()), None);
    assert_eq!(rt; refusal(checker.rule(&[])), now);
    assert_eq!(rt; refusal(checker.close()), now);
    assert_eq!(rt; offer(&mut checker, &[1, 0], &[], &[]), now);
    assert_eq!(rt; refusal(checker.finish()), now);
    assert_eq!(rt; refusal(checker.question(&[], &mut [])), None);
    Ok(())
}

// The state is asked before the place, and the place before the table.
#[test]
fn thirty_two_of_each(rt: HostRuntime) -> Result<(), Fail> {
    let mut checker = Checker::new(rt.alloc(), PrimeField::new(7)?, Lex)?;
    // so many calls
    for _ in 0..32 {
        assert_eq!(rt; refusal(checker.rule(&[1, 1])), None);
    }
    assert_eq!(rt; refusal(checker.rule(&[0])), five(3, 4, 0, 0, 0));
    assert_eq!(rt; refusal(checker.close()), None);
    assert_eq!(rt; refusal(checker.rule(&[0])), five(2, 4, 0, 0, 0));
    assert_eq!(rt; refusal(checker.open(1)), None);
    assert_eq!(rt; refusal(checker.rule(&[1, 1])), None);
    assert_eq!(rt; refusal(checker.close()), None);
    for _ in 0..32 {
        assert_eq!(rt; offer(&mut checker, &[1, 1], &[1, 0], &[1]), None);
    }
    assert_eq!(rt;
        offer(&mut checker, &[0], &[1, 0], &[1]),
        five(3, 4, 0, 0, 0)
    );
    Ok(())
}

#[test]
fn tables_of_generators(rt: HostRuntime) -> Result<(), Fail> {
    let mut checker = Checker::new(rt.alloc(), PrimeField::new(7)?, Lex)?;
    assert_eq!(rt; refusal(checker.rule(&[])), None);
    assert_eq!(rt; refusal(checker.rule(&[1, 1, 5])), five(4, 2, 1, 1, 0));
    assert_eq!(rt; refusal(checker.rule(&[1; 66])), five(5, 2, 1, 1, 0));
    assert_eq!(rt; refusal(checker.rule(&[0, 300])), five(6, 2, 1, 1, 0));
    assert_eq!(rt; refusal(checker.rule(&[1, 2, 7, 1])), five(6, 2, 1, 1, 1));
    assert_eq!(rt; refusal(checker.rule(&[1, 256])), five(7, 2, 1, 1, 0));
    assert_eq!(rt;
        refusal(checker.rule(&[1, 255, 1, 255])),
        five(8, 2, 1, 1, 1)
    );
    Ok(())
}

// The generator a + 5, and one element held already.
#[test]
fn elements(rt: HostRuntime) -> Result<(), Fail> {
    let mut checker = Checker::new(rt.alloc(), PrimeField::new(7)?, Lex)?;
    assert_eq!(rt; refusal(checker.rule(&[1, 1, 5, 0])), None);
    assert_eq!(rt; refusal(checker.close()), None);
    assert_eq!(rt; offer(&mut checker, &[2, 1, 3, 0], &[2, 0], &[1]), None);
    assert_eq!(rt; offer(&mut checker, &[1], &[], &[]), five(4, 2, 2, 1, 0));
    assert_eq!(rt;
        offer(&mut checker, &[1; 66], &[], &[]),
        five(5, 2, 2, 1, 0)
    );
    assert_eq!(rt; offer(&mut checker, &[7, 0], &[], &[]), five(6, 2, 2, 1, 0));
    assert_eq!(rt;
        offer(&mut checker, &[1, 256], &[], &[]),
        five(7, 2, 2, 1, 0)
    );
    assert_eq!(rt;
        offer(&mut checker, &[1, 0, 1, 1], &[], &[]),
        five(8, 2, 2, 1, 1)
    );
    assert_eq!(rt; offer(&mut checker, &[], &[], &[]), five(9, 2, 2, 1, 0));
    assert_eq!(rt;
        offer(&mut checker, &[1, 0], &[], &[]),
        five(10, 2, 0, 0, 0)
    );
    assert_eq!(rt;
        offer(&mut checker, &[1, 0], &[1, 0, 1], &[1]),
        five(4, 2, 3, 0, 0)
    );
    assert_eq!(rt;
        offer(&mut checker, &[1, 0], &[1; 66], &[33]),
        five(5, 2, 3, 0, 0)
    );
    assert_eq!(rt;
        offer(&mut checker, &[1, 0], &[1, 1, 8, 0], &[2]),
        five(6, 2, 3, 0, 1)
    );
    assert_eq!(rt;
        offer(&mut checker, &[1, 0], &[1, 256], &[1]),
        five(7, 2, 3, 0, 0)
    );
    assert_eq!(rt;
        offer(&mut checker, &[1, 0], &[1, 0, 1, 1], &[2]),
        five(8, 2, 3, 0, 1)
    );
    assert_eq!(rt;
        offer(&mut checker, &[1, 0], &[1, 0], &[1]),
        five(13, 4, 2, 1, 0)
    );
    Ok(())
}

// Residues modulo 2, two variables: with the element a + b + 1 alone the generator ab leaves a remainder.
#[test]
fn a_generator_is_left(rt: HostRuntime) -> Result<(), Fail> {
    let mut checker = Checker::new(rt.alloc(), PrimeField::new(2)?, Lex)?;
    let line = [1, 1, 0, 1, 0, 1, 1, 0, 0];
    assert_eq!(rt; refusal(checker.open(2)), None);
    assert_eq!(rt; refusal(checker.rule(&line)), None);
    assert_eq!(rt; refusal(checker.rule(&[1, 1, 1])), None);
    assert_eq!(rt; refusal(checker.close()), None);
    assert_eq!(rt; offer(&mut checker, &line, &[1, 0, 0], &[1, 0]), None);
    assert_eq!(rt; refusal(checker.finish()), five(14, 4, 1, 1, 0));
    Ok(())
}

// Residues modulo 7, two variables, graded: a³ + 5ab and a²b + 5b² + a, a textbook's example, whose S-polynomial leaves 6a².
#[test]
fn a_pair_is_left(rt: HostRuntime) -> Result<(), Fail> {
    let mut checker = Checker::new(rt.alloc(), PrimeField::new(7)?, Graded)?;
    let first = [1, 3, 0, 5, 1, 1];
    let second = [1, 2, 1, 5, 0, 2, 1, 1, 0];
    assert_eq!(rt; refusal(checker.open(2)), None);
    assert_eq!(rt; refusal(checker.rule(&first)), None);
    assert_eq!(rt; refusal(checker.rule(&second)), None);
    assert_eq!(rt; refusal(checker.close()), None);
    assert_eq!(rt; offer(&mut checker, &first, &[1, 0, 0], &[1, 0]), None);
    assert_eq!(rt; offer(&mut checker, &second, &[1, 0, 0], &[0, 1]), None);
    assert_eq!(rt; refusal(checker.finish()), five(15, 4, 5, 0, 1));
    Ok(())
}

// Without generators nothing but 0 follows: what is asked is what is left.
#[test]
fn questions(rt: HostRuntime) -> Result<(), Fail> {
    let mut checker = Checker::new(rt.alloc(), PrimeField::new(7)?, Lex)?;
    let mut left = [9; 4];
    assert_eq!(rt; refusal(checker.close()), None);
    assert_eq!(rt; refusal(checker.finish()), None);
    assert_eq!(rt;
        refusal(checker.question(&[1], &mut left)),
        five(4, 2, 4, 0, 0)
    );
    assert_eq!(rt;
        refusal(checker.question(&[1; 1026], &mut left)),
        five(5, 2, 4, 0, 0)
    );
    assert_eq!(rt;
        refusal(checker.question(&[1, 1, 0, 0], &mut left)),
        five(6, 2, 4, 0, 1)
    );
    assert_eq!(rt;
        refusal(checker.question(&[1, 256], &mut left)),
        five(7, 2, 4, 0, 0)
    );
    assert_eq!(rt;
        refusal(checker.question(&[1, 0, 1, 0], &mut left)),
        five(8, 2, 4, 0, 1)
    );
    assert_eq!(rt;
        refusal(checker.question(&[1, 2, 1, 1, 1, 0], &mut left)),
        five(16, 2, 4, 0, 0)
    );
    assert_eq!(rt; left, [9; 4]);
    assert_eq!(rt; checker.question(&[1, 2, 1, 1], &mut left).ok(), Some(2));
    assert_eq!(rt; left, [1, 2, 1, 1]);
    Ok(())
}
