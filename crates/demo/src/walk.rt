// One element checked, step by step. What prints is passed `rt`, by a rule of the language, so it makes no struct with the ring.
ghost use Rattle.std.specs.Prelude.{◌≤◌, length, IfOk};
ghost use Rattle.polynomial.specs.Rings.{Within};
ghost use Rattle.polynomial.specs.Views.{view};

use crate::show::{Shown, ShownTerm};
use anyhow::anyhow;
use checker::ElementChecker;
use combination::Offered;
use fault::{Fault, FaultNumbers};
use field::{Field, PrimeField};
use order::{Lex, MonomialOrder};
use polynomial::{Accumulator, Multiple, Polynomial, Ring, TableSize, Term};
use std::io;

// The tables of one check; the cofactors both apart, to be shown, and one behind the other, to be checked.
#[derive(Clone, Copy, PartialEq, Eq, Debug)]
pub struct Sheet<'a> {
    pub first_generator: &'a [u16],
    pub second_generator: &'a [u16],
    pub first_cofactor: &'a [u16],
    pub second_cofactor: &'a [u16],
    pub offered: Offered<'a>,
}

// Reads a polynomial and shows it.
pub(crate) fn read_and_tell<F: Field, O: MonomialOrder>(
    rt: &HostRuntime,
    ring: &Ring<F, O>,
    name: &str,
    table: &[u16],
) -> anyhow::Result<Polynomial>
    ensures within { IfOk result (λ p. Within ring.now (view p.terms.items)) }
    ensures few { IfOk result (λ p. length p.terms.items ≤ 32) }
{
    let mut polynomial = Polynomial::new(rt.alloc())?;
    let Ok(()) = ring.read(TableSize::Short, table, &mut polynomial) else {
        return Err(anyhow!("a table holds no polynomial"));
    };
    let shown = Shown {
        terms: polynomial.terms(),
    };
    println!(rt; "  {name}: {shown}")?;
    Ok(polynomial)
}

// Adds cofactor × generator to the sum, one step for each term of the cofactor, aloud. It asks what the silent sum of `combination` asks, for the
// same reason: a type cannot name the value of a ring.
fn add_and_tell<F: Field, O: MonomialOrder>(
    rt: &HostRuntime,
    ring: &Ring<F, O>,
    cofactor: &[Term],
    generator: &[Term],
    sum: &mut Accumulator,
) -> anyhow::Result<()>
    requires cofactor { Within ring.now (view cofactor.now) }
    requires generator { Within ring.now (view generator.now) }
    requires few { length generator.now ≤ 512 }
    requires sum { Within ring.now (view sum.old.sum.terms.items) }
    ensures { Within ring.now (view sum.new.sum.terms.items) }
{
    let polynomial = Shown { terms: generator };
    for term in cofactor {
        let product = Multiple {
            ring,
            factor: *term,
            polynomial: generator,
        };
        let Ok(()) = sum.add(0, &product) else {
            return Err(anyhow!("a limit was met"));
        };
        let factor = ShownTerm { term };
        let shown = Shown { terms: sum.terms() };
        println!(rt; "  + {factor} × ({polynomial}): {shown}")?;
    }
    Ok(())
}

// The sum of cofactor × generator, aloud.
fn sum_and_tell<F: Field, O: MonomialOrder>(
    rt: &HostRuntime,
    ring: &Ring<F, O>,
    sheet: &Sheet,
) -> anyhow::Result<()> {
    let first = read_and_tell(rt, ring, "generator 0", sheet.first_generator)?;
    let second = read_and_tell(rt, ring, "generator 1", sheet.second_generator)?;
    read_and_tell(rt, ring, "element", sheet.offered.table)?;
    let first_cofactor = read_and_tell(rt, ring, "cofactor 0", sheet.first_cofactor)?;
    let second_cofactor = read_and_tell(rt, ring, "cofactor 1", sheet.second_cofactor)?;
    rt.println("  sum from 0, after each product:")?;
    let mut sum = Accumulator::new(rt.alloc())?;
    add_and_tell(rt, ring, first_cofactor.terms(), first.terms(), &mut sum)?;
    add_and_tell(rt, ring, second_cofactor.terms(), second.terms(), &mut sum)
}

fn tell_verdict(rt: &HostRuntime, answer: Result<(), Fault>) -> io::Result<()> {
    match answer {
        Ok(()) => rt.println("  verdict: the element is the sum of cofactor × generator"),
        Err(fault) => {
            let FaultNumbers {
                refusal,
                layer,
                subject,
                first,
                second,
            } = fault.numbers();
            println!(rt;
                "  verdict: refused, {refusal} (layer {layer}, subject {subject}, first {first}, second {second})"
            )
        }
    }
}

// Shows the whole check, and then has the checker decide.
pub fn check_and_tell(rt: &HostRuntime, sheet: &Sheet) -> anyhow::Result<()> {
    let Ok(field) = PrimeField::new(7) else {
        return Err(anyhow!("7 is a listed size"));
    };
    rt.println("  field: residues modulo 7; order: lex; variable: a")?;
    let ring = Ring::new(field, Lex);
    sum_and_tell(rt, &ring, sheet)?;
    let mut checker = ElementChecker::new(rt.alloc(), field, Lex)?;
    if checker.add_generator(sheet.first_generator).is_err()
        || checker.add_generator(sheet.second_generator).is_err()
    {
        return Err(anyhow!("a generator was refused"));
    }
    tell_verdict(rt, checker.check_element(0, &sheet.offered))?;
    Ok(())
}
