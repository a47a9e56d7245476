// Checks one basis element from beginning to end, and says what it does: first as the office's program wrote it,
// then with one cofactor damaged. Then it makes an S-polynomial, and divides.
#![tactic(auto)]

mod divide;
mod show;
mod walk;

use combination::Offered;
use divide::{Example, divide_example};
use walk::{Sheet, check_and_tell};

// Residues modulo 7, one variable: the generators a³ + 6a² + 5a and a² + 4a + 2, and the element a + 5.
const FIRST_GENERATOR: [u16; 6] = [1, 3, 6, 2, 5, 1];

const SECOND_GENERATOR: [u16; 6] = [1, 2, 4, 1, 2, 0];

const ELEMENT: [u16; 4] = [1, 1, 5, 0];

// The cofactors 4 and 3a + 6, one behind the other, and how many terms each has.
const COFACTORS: [u16; 6] = [4, 0, 3, 1, 6, 0];

const COUNTS: [u16; 2] = [1, 2];

// The same with 3a + 5.
const DAMAGED_COFACTORS: [u16; 6] = [4, 0, 3, 1, 5, 0];

// Residues modulo 7, two variables, graded: the elements a³ + 5ab and a²b + 5b² + a, and the dividend a³b + a²b.
const CUBIC: [u16; 6] = [1, 3, 0, 5, 1, 1];

const MIXED: [u16; 9] = [1, 2, 1, 5, 0, 2, 1, 1, 0];

const DIVIDEND: [u16; 6] = [1, 3, 1, 1, 2, 1];

fn tables<'a>(cofactors: &'a [u16; 6]) -> Sheet<'a> {
    Sheet {
        first_generator: &FIRST_GENERATOR,
        second_generator: &SECOND_GENERATOR,
        first_cofactor: &cofactors[..2],
        second_cofactor: &cofactors[2..],
        offered: Offered {
            table: &ELEMENT,
            cofactors,
            counts: &COUNTS,
        },
    }
}

fn run(rt: &HostRuntime) -> anyhow::Result<()> {
    rt.println("The element as the office's program wrote it")?;
    check_and_tell(rt, &tables(&COFACTORS))?;
    rt.println("")?;
    rt.println("The same with one cofactor damaged")?;
    check_and_tell(rt, &tables(&DAMAGED_COFACTORS))?;
    rt.println("")?;
    rt.println("An S-polynomial and two divisions, turn by turn")?;
    let example = Example {
        first: &CUBIC,
        second: &MIXED,
        dividend: &DIVIDEND,
    };
    divide_example(rt, &example)
}

fn main(rt: HostRuntime) -> anyhow::Result<()> {
    run(&rt)
}
