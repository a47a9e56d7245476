// A step at each limit, on both sides of it: residues modulo 7, lex.
ghost use Rattle.polynomial.specs.Rings.{Within};
ghost use Rattle.polynomial.specs.Views.{view};

use crate::reading::read;
use field::{Field, PrimeField};
use order::{Lex, MonomialOrder};
use polynomial::{Accumulator, Limit, Multiple, Ring, TableSize};
use std::alloc::{AllocError, Global};
use std::test::Fail;

// Reads two tables, and adds the product of the first one's leading term and the second in one step: how many terms the
// sum has then, or the limit met.
fn read_and_step<F: Field, O: MonomialOrder>(
    ring: &Ring<F, O>,
    heap: Global,
    factor: &[u16],
    table: &[u16],
    sum: &mut Accumulator,
) -> Result<Result<usize, Limit>, Fail>
    requires sum { Within ring.now (view sum.old.sum.terms.items) }
    ensures { Within ring.now (view sum.new.sum.terms.items) }
{
    let first = read(ring, heap, TableSize::Short, factor)?;
    let second = read(ring, heap, TableSize::Long, table)?;
    let [factor, ..] = first.terms() else {
        return Err(Fail::new("a factor is 0"));
    };
    let product = Multiple {
        ring,
        factor: *factor,
        polynomial: second.terms(),
    };
    let answer = sum.add(0, &product);
    Ok(answer.map(|()| sum.terms().len()))
}

// 512 terms in two variables: a·b^255, .., a, b^255, .., 1.
fn long_table(heap: Global) -> Result<Vec<u16>, AllocError> {
    let mut table = Vec::new(heap);
    // a term for each number
    for i in 0..512u16 {
        table.extend_from_slice(&[1, 1 - i / 256, 255 - i % 256])?;
    }
    Ok(table)
}

#[test]
fn exponents_up_to_255(rt: HostRuntime) -> Result<(), Fail> {
    let ring = Ring::new(PrimeField::new(7)?, Lex);
    let mut sum = Accumulator::new(rt.alloc())?;
    assert_eq!(rt;
        read_and_step(&ring, rt.alloc(), &[1, 1], &[1, 254], &mut sum)?,
        Ok(1)
    );
    assert_eq!(rt;
        read_and_step(&ring, rt.alloc(), &[1, 1], &[1, 255], &mut sum)?,
        Err(Limit::Exponent)
    );
    assert_eq!(rt;
        read_and_step(&ring, rt.alloc(), &[1, 1], &[], &mut sum)?,
        Ok(1)
    );
    Ok(())
}

#[test]
fn terms_up_to_512(rt: HostRuntime) -> Result<(), Fail> {
    let mut ring = Ring::new(PrimeField::new(7)?, Lex);
    assert_eq!(rt; ring.set_variables(2), Ok(()));
    let mut sum = Accumulator::new(rt.alloc())?;
    let long = long_table(rt.alloc())?;
    assert_eq!(rt;
        read_and_step(&ring, rt.alloc(), &[1, 0, 0], long.as_slice(), &mut sum)?,
        Ok(512)
    );
    assert_eq!(rt;
        read_and_step(&ring, rt.alloc(), &[1, 0, 0], &[1, 2, 0], &mut sum)?,
        Err(Limit::Terms)
    );
    assert_eq!(rt;
        read_and_step(&ring, rt.alloc(), &[6, 0, 0], &[1, 0, 255], &mut sum)?,
        Ok(511)
    );
    assert_eq!(rt;
        read_and_step(&ring, rt.alloc(), &[1, 0, 0], &[1, 2, 0], &mut sum)?,
        Ok(512)
    );
    Ok(())
}
