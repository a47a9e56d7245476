// One S-polynomial and two divisions, turn by turn.
ghost use Rattle.std.specs.Prelude.{◌≡◌, ◌+◌, ◌≤◌, [], ◌∷◌, length, IfOk};
ghost use Rattle.polynomial.specs.Kept.{polynomials};
ghost use Rattle.polynomial.specs.Rings.{Within};
ghost use Rattle.polynomial.specs.Views.{view};

use crate::show::{Shown, ShownTerm};
use crate::walk::read_and_tell;
use anyhow::anyhow;
use division::{Division, Divisor, Pair, find_divisor};
use field::{Field, PrimeField};
use order::{Graded, MonomialOrder};
use polynomial::{Family, PolynomialList, Ring, Term, multipliers};
use std::alloc::{AllocError, Global};
use std::io;

// More turns are not shown.
const MOST_TURNS: usize = 20;

// The tables of two elements and of a polynomial that is divided by them.
#[derive(Clone, Copy, PartialEq, Eq, Debug)]
pub(crate) struct Example<'a> {
    pub first: &'a [u16],
    pub second: &'a [u16],
    pub dividend: &'a [u16],
}

fn list_of_two(heap: Global, first: &[Term], second: &[Term]) -> Result<PolynomialList, AllocError>
    requires first { length first.now ≤ 32 }
    requires second { length second.now ≤ 32 }
    ensures { IfOk result (λ l. polynomials l ≡ view first.now ∷ view second.now ∷ []) }
{
    let mut list = PolynomialList::new(heap)?;
    list.push(first).unwrap();
    list.push(second).unwrap();
    Ok(list)
}

// What the two elements are multiplied by, so that their leading terms cancel.
fn tell_multipliers(rt: &HostRuntime, first: &[Term], second: &[Term]) -> io::Result<()> {
    let ([a, ..], [b, ..]) = (first, second) else {
        return Ok(());
    };
    let (left, right) = multipliers(&a.monomial, &b.monomial);
    let left = Term {
        coefficient: 1,
        monomial: left,
    };
    let right = Term {
        coefficient: 1,
        monomial: right,
    };
    let left = ShownTerm { term: &left };
    let right = ShownTerm { term: &right };
    println!(rt; "  multipliers: {left} for element 0, {right} for element 1")
}

fn tell_turn(
    rt: &HostRuntime,
    leading: &Term,
    divisor: Option<Divisor>,
    division: &Division,
) -> io::Result<()> {
    let leading = ShownTerm { term: leading };
    match divisor {
        Some(divisor) => {
            let number = divisor.number;
            println!(rt; "  {leading}: cancelled by element {number}")?;
        }
        None => println!(rt; "  {leading}: no element divides it, it moves to the remainder")?,
    }
    let left = Shown {
        terms: division.dividend(),
    };
    let remainder = Shown {
        terms: division.remainder(),
    };
    println!(rt; "    left: {left}; remainder: {remainder}")
}

// One turn after another, aloud; so many are shown. It asks what a turn asks, for the reason given there.
fn divide_and_tell<F: Field, O: MonomialOrder>(
    rt: &HostRuntime,
    elements: &Family<F, O>,
    division: &mut Division,
) -> anyhow::Result<()>
    requires dividend { Within elements.now.ring.now (view division.old.dividend.sum.terms.items) }
    requires fits { length division.old.remainder.terms.items + length division.old.dividend.sum.terms.items ≤ 512 }
{
    for _ in 0..MOST_TURNS {
        let &[leading, ..] = division.dividend() else {
            return Ok(());
        };
        let divisor = find_divisor(elements.list, &leading.monomial);
        let Ok(()) = division.turn(elements) else {
            return Err(anyhow!("a limit was met"));
        };
        tell_turn(rt, &leading, divisor, division)?;
    }
    Err(anyhow!("the division takes more turns than are shown"))
}

// The S-polynomial of the two elements, divided; and then the dividend.
fn divide_both<F: Field, O: MonomialOrder>(
    rt: &HostRuntime,
    pair: &Pair<F, O>,
    dividend: &[Term],
) -> anyhow::Result<()>
    requires first { length pair.now.first.now ≤ 32 }
    requires second { length pair.now.second.now ≤ 32 }
    requires dividend { Within pair.now.ring.now (view dividend.now) }
{
    let list = list_of_two(rt.alloc(), pair.first, pair.second)?;
    let elements = Family {
        ring: pair.ring,
        list: &list,
    };
    let mut division = Division::new(rt.alloc())?;
    tell_multipliers(rt, pair.first, pair.second)?;
    let Ok(()) = division.load_s_polynomial(pair) else {
        return Err(anyhow!("a limit was met"));
    };
    let shown = Shown {
        terms: division.dividend(),
    };
    println!(rt; "  S-polynomial: {shown}; divided:")?;
    divide_and_tell(rt, &elements, &mut division)?;
    let Ok(()) = division.load(dividend) else {
        return Err(anyhow!("the dividend is too long"));
    };
    let shown = Shown { terms: dividend };
    println!(rt; "  dividend: {shown}; divided:")?;
    divide_and_tell(rt, &elements, &mut division)
}

// Reads the example, and divides.
pub(crate) fn divide_example(rt: &HostRuntime, example: &Example) -> anyhow::Result<()> {
    let Ok(field) = PrimeField::new(7) else {
        return Err(anyhow!("7 is a listed size"));
    };
    rt.println("  field: residues modulo 7; order: graded; variables: a, b")?;
    let mut ring = Ring::new(field, Graded);
    let Ok(()) = ring.set_variables(2) else {
        return Err(anyhow!("there can be two variables"));
    };
    let first = read_and_tell(rt, &ring, "element 0", example.first)?;
    let second = read_and_tell(rt, &ring, "element 1", example.second)?;
    let dividend = read_and_tell(rt, &ring, "dividend", example.dividend)?;
    let pair = Pair {
        ring: &ring,
        first: first.terms(),
        second: second.terms(),
    };
    divide_both(rt, &pair, dividend.terms())
}
