// A division and an S-polynomial at each limit, on both sides of it.
use crate::reading::read;
use division::{Division, Pair};
use field::{Field, PrimeField};
use order::{Lex, MonomialOrder};
use polynomial::{Family, Limit, PolynomialList, Ring, TableSize};
use std::alloc::{AllocError, Global};
use std::test::Fail;

// The remainder of a dividend by one element: how many terms it has, or the limit met.
fn remainder_by_one<F: Field, O: MonomialOrder>(
    ring: &Ring<F, O>,
    heap: Global,
    element: &[u16],
    dividend: &[u16],
) -> Result<Result<usize, Limit>, Fail> {
    let divisor = read(ring, heap, TableSize::Short, element)?;
    let dividend = read(ring, heap, TableSize::Long, dividend)?;
    let mut list = PolynomialList::new(heap)?;
    list.push(divisor.terms())?;
    let mut division = Division::new(heap)?;
    let family = Family { ring, list: &list };
    let answer = division.divide(&family, dividend.terms());
    Ok(answer.map(|()| division.remainder().len()))
}

fn s_polynomial<F: Field, O: MonomialOrder>(
    ring: &Ring<F, O>,
    heap: Global,
    first: &[u16],
    second: &[u16],
) -> Result<Result<usize, Limit>, Fail> {
    let g = read(ring, heap, TableSize::Short, first)?;
    let h = read(ring, heap, TableSize::Short, second)?;
    let mut division = Division::new(heap)?;
    let pair = Pair {
        ring,
        first: g.terms(),
        second: h.terms(),
    };
    let answer = division.load_s_polynomial(&pair);
    Ok(answer.map(|()| division.dividend().len()))
}

// So many terms in a and b, the first of them a²b²⁵⁵, and then c².
fn long_table(heap: Global, count: u16) -> Result<Vec<u16>, AllocError> {
    let mut table = Vec::new(heap);
    // a term for each number
    for i in 0..count {
        table.extend_from_slice(&[1, 2u16.saturating_sub(i / 256), 255 - i % 256, 0])?;
    }
    table.extend_from_slice(&[1, 0, 0, 2])?;
    Ok(table)
}

// By a + b¹²⁷ the square of a leaves b²⁵⁴; by a + b¹²⁸ it comes to b²⁵⁶.
#[test]
fn exponents_up_to_255(rt: HostRuntime) -> Result<(), Fail> {
    let mut ring = Ring::new(PrimeField::new(2)?, Lex);
    assert_eq!(rt; ring.set_variables(2), Ok(()));
    assert_eq!(rt;
        remainder_by_one(&ring, rt.alloc(), &[1, 1, 0, 1, 0, 127], &[1, 2, 0])?,
        Ok(1)
    );
    assert_eq!(rt;
        remainder_by_one(&ring, rt.alloc(), &[1, 1, 0, 1, 0, 128], &[1, 2, 0])?,
        Err(Limit::Exponent)
    );
    Ok(())
}

// c² + c + 1 makes two terms of c², so that there are 512 terms with 510 in the remainder, and 513 with 511.
#[test]
fn remainder_counts_among_512(rt: HostRuntime) -> Result<(), Fail> {
    let mut ring = Ring::new(PrimeField::new(2)?, Lex);
    assert_eq!(rt; ring.set_variables(3), Ok(()));
    let element = [1, 0, 0, 2, 1, 0, 0, 1, 1, 0, 0, 0];
    let fits = long_table(rt.alloc(), 510)?;
    assert_eq!(rt;
        remainder_by_one(&ring, rt.alloc(), &element, fits.as_slice())?,
        Ok(512)
    );
    let too_long = long_table(rt.alloc(), 511)?;
    assert_eq!(rt;
        remainder_by_one(&ring, rt.alloc(), &element, too_long.as_slice())?,
        Err(Limit::Terms)
    );
    Ok(())
}

// a² + b¹⁰⁰ is multiplied by b¹⁵⁵, and then by b¹⁵⁶.
#[test]
fn pair_exponents_up_to_255(rt: HostRuntime) -> Result<(), Fail> {
    let mut ring = Ring::new(PrimeField::new(7)?, Lex);
    assert_eq!(rt; ring.set_variables(2), Ok(()));
    let first = [1, 2, 0, 1, 0, 100];
    assert_eq!(rt;
        s_polynomial(&ring, rt.alloc(), &first, &[1, 0, 155, 1, 0, 0])?,
        Ok(2)
    );
    assert_eq!(rt;
        s_polynomial(&ring, rt.alloc(), &first, &[1, 0, 156, 1, 0, 0])?,
        Err(Limit::Exponent)
    );
    Ok(())
}
