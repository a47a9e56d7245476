// Divisions and S-polynomials compared with the answers of other algebra programs, row by row.
ghost use Rattle.std.specs.Prelude.{◌≤◌, length, IfOk};
ghost use Rattle.ideal.specs.Lists.{Each};
ghost use Rattle.polynomial.specs.Kept.{polynomials};
ghost use Rattle.polynomial.specs.Rings.{Within};
ghost use Rattle.polynomial.specs.Views.{view};

use crate::divisions::rows::{Coefficients, Order, Question, ROWS, Row};
use crate::reading;
use division::{Division, Pair};
use field::{BinaryField, Field, PrimeField};
use order::{Graded, Lex, MonomialOrder, Reverse};
use polynomial::{Family, Polynomial, PolynomialList, Ring, TableSize, Term, are_equal};
use std::alloc::{AllocError, Global};
use std::test::Fail;

mod rows;

// A coefficient and 24 exponents.
const MOST_NUMBERS: usize = 25;

// Adds a term to a table.
fn push_term(table: &mut Vec<u16>, variables: usize, term: &str) -> Result<(), AllocError>
    requires { variables ≤ 24 }
{
    let mut numbers = [0; MOST_NUMBERS];
    let mut place = 0;
    let mut number = 0;
    for byte in term.as_bytes() {
        match *byte {
            b'0'..=b'9' => number = number % 1000 * 10 + u16::from(*byte - b'0'),
            b'a'..=b'x' => {
                numbers[place] = number.max(1);
                place = usize::from(*byte - b'a') + 1;
                number = 0;
            }
            _ => {}
        }
    }
    numbers[place] = number.max(1);
    table.extend_from_slice(&numbers[..variables + 1])
}

fn table_of(heap: Global, variables: usize, text: &str) -> Result<Vec<u16>, AllocError>
    requires { variables ≤ 24 }
{
    let mut table = Vec::new(heap);
    if text == "0" {
        return Ok(table);
    }
    for term in text.split('+') {
        push_term(&mut table, variables, term)?;
    }
    Ok(table)
}

fn read<F: Field, O: MonomialOrder>(
    ring: &Ring<F, O>,
    heap: Global,
    text: &str,
) -> Result<Polynomial, Fail>
    ensures within { IfOk result (λ p. Within ring.now (view p.terms.items)) }
    ensures few { IfOk result (λ p. length p.terms.items ≤ 32) }
{
    let table = table_of(heap, ring.variables(), text)?;
    reading::read(ring, heap, TableSize::Short, table.as_slice())
}

fn read_list<F: Field, O: MonomialOrder>(
    ring: &Ring<F, O>,
    heap: Global,
    texts: &[&str],
) -> Result<PolynomialList, Fail>
    ensures { IfOk result (λ l. Each (Within ring.now) (polynomials l)) }
{
    let mut list = PolynomialList::new(heap)?;
    for text in texts {
        let polynomial = read(ring, heap, text)?;
        list.push(polynomial.terms())?;
    }
    Ok(list)
}

fn expect_equal(found: &[Term], expected: &[Term], answer: &str) -> Result<(), Fail> {
    if !are_equal(found, expected) {
        return Err(Fail::new(format_args!("what is found is not {answer}")));
    }
    Ok(())
}

fn check_remainder<F: Field, O: MonomialOrder>(
    ring: &Ring<F, O>,
    heap: Global,
    dividend: &str,
    elements: &[&str],
    answer: &str,
) -> Result<(), Fail> {
    let list = read_list(ring, heap, elements)?;
    let dividend = read(ring, heap, dividend)?;
    let expected = read(ring, heap, answer)?;
    let mut division = Division::new(heap)?;
    let family = Family { ring, list: &list };
    let Ok(()) = division.divide(&family, dividend.terms()) else {
        return Err(Fail::new(format_args!("the division meets a limit, not {answer}")));
    };
    expect_equal(division.remainder(), expected.terms(), answer)
}

fn check_s_polynomial<F: Field, O: MonomialOrder>(
    ring: &Ring<F, O>,
    heap: Global,
    g: &str,
    h: &str,
    answer: &str,
) -> Result<(), Fail> {
    let g = read(ring, heap, g)?;
    let h = read(ring, heap, h)?;
    let expected = read(ring, heap, answer)?;
    let mut division = Division::new(heap)?;
    let pair = Pair {
        ring,
        first: g.terms(),
        second: h.terms(),
    };
    let Ok(()) = division.load_s_polynomial(&pair) else {
        return Err(Fail::new(format_args!("the S-polynomial meets a limit, not {answer}")));
    };
    expect_equal(division.dividend(), expected.terms(), answer)
}

fn check_in<F: Field + Drop, O: MonomialOrder + Drop>(
    field: F,
    order: O,
    heap: Global,
    row: &Row,
) -> Result<(), Fail> {
    let mut ring = Ring::new(field, order);
    ring.set_variables(row.variables)?;
    match row.question {
        Question::Remainder { dividend, elements } => {
            check_remainder(&ring, heap, dividend, elements, row.answer)
        }
        Question::Pair { g, h } => check_s_polynomial(&ring, heap, g, h, row.answer),
    }
}

fn check_over<F: Field + Drop>(field: F, heap: Global, row: &Row) -> Result<(), Fail> {
    match row.order {
        Order::Lex => check_in(field, Lex, heap, row),
        Order::Graded => check_in(field, Graded, heap, row),
        Order::Reverse => check_in(field, Reverse, heap, row),
    }
}

fn check_row(heap: Global, row: &Row) -> Result<(), Fail> {
    match row.coefficients {
        Coefficients::Residues(size) => check_over(PrimeField::new(size)?, heap, row),
        Coefficients::Bits(size) => check_over(BinaryField::new(size)?, heap, row),
    }
}

#[test]
fn outside_answers(rt: HostRuntime) -> Result<(), Fail> {
    for row in &ROWS {
        check_row(rt.alloc(), row)?;
    }
    Ok(())
}
