// Polynomials read from tables, for tests. What allocates is passed the heap, by a rule of the language, so it makes no struct with the ring.
ghost use Rattle.std.specs.Prelude.{◌≤◌, length, IfOk};
ghost use Rattle.polynomial.specs.Rings.{Within};
ghost use Rattle.polynomial.specs.Tables.{most};
ghost use Rattle.polynomial.specs.Views.{view};

use field::Field;
use order::MonomialOrder;
use polynomial::{Polynomial, Ring, TableSize};
use std::alloc::Global;
use std::test::Fail;

pub fn read<F: Field, O: MonomialOrder>(
    ring: &Ring<F, O>,
    heap: Global,
    size: TableSize,
    table: &[u16],
) -> Result<Polynomial, Fail>
    ensures within { IfOk result (λ p. Within ring.now (view p.terms.items)) }
    ensures few { IfOk result (λ p. length p.terms.items ≤ most size) }
{
    let mut polynomial = Polynomial::new(heap)?;
    let Ok(()) = ring.read(size, table, &mut polynomial) else {
        return Err(Fail::new(format_args!("{table:?} does not read")));
    };
    Ok(polynomial)
}
