// Polynomials as text: 3a^2b + 5, with the letters a, b, c … for the variables.
use polynomial::Term;
use std::fmt;

// A polynomial.
#[derive(Clone, Copy, PartialEq, Eq, Debug)]
pub struct Shown<'a> {
    pub terms: &'a [Term],
}

// A term.
#[derive(Clone, Copy, PartialEq, Eq, Debug)]
pub struct ShownTerm<'a> {
    pub term: &'a Term,
}

fn show_variable<W: fmt::Write>(
    f: &mut fmt::Formatter<W>,
    variable: usize,
    exponent: u16,
) -> fmt::Result {
    let letter = char::from(b'a' + (variable % 26) as u8);
    if exponent == 1 {
        write!(f, "{letter}")
    } else {
        write!(f, "{letter}^{exponent}")
    }
}

impl fmt::Display for ShownTerm<'_> {
    fn fmt<W: fmt::Write>(&self, f: &mut fmt::Formatter<W>) -> fmt::Result {
        let exponents = self.term.monomial.exponents();
        let coefficient = self.term.coefficient;
        if coefficient != 1 || exponents.iter().all(|exponent| *exponent == 0) {
            write!(f, "{coefficient}")?;
        }
        for (variable, exponent) in exponents.iter().enumerate() {
            if *exponent != 0 {
                show_variable(f, variable, *exponent)?;
            }
        }
        Ok(())
    }
}

impl fmt::Display for Shown<'_> {
    fn fmt<W: fmt::Write>(&self, f: &mut fmt::Formatter<W>) -> fmt::Result {
        let [leading, rest @ ..] = self.terms else {
            return f.write_str("0");
        };
        let leading = ShownTerm { term: leading };
        write!(f, "{leading}")?;
        for term in rest {
            let term = ShownTerm { term };
            write!(f, " + {term}")?;
        }
        Ok(())
    }
}
