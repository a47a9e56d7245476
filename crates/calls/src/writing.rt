// Polynomials written into a table of the caller's.
ghost use Rattle.std.specs.Prelude.{◌≡◌, suc, ◌≤◌, ◌∷◌, ◌++◌, length, drop};
ghost use Rattle.polynomial.specs.Views.{exponents_of, view};
ghost use Rattle.run.specs.Calls.{flat, written};

use polynomial::Term;

// Writes a term at the start of the table; how many numbers that took.
fn write_term(term: &Term, result_table: &mut [u16]) -> usize
    requires { suc (length (exponents_of term.now.monomial)) ≤ length result_table.old }
    ensures count { result ≡ suc (length (exponents_of term.now.monomial)) }
    ensures table { result_table.new ≡ (term.now.coefficient ∷ exponents_of term.now.monomial) ++ drop result result_table.old }
{
    let exponents = term.monomial.exponents();
    let count = exponents.len() + 1;
    result_table[0] = term.coefficient;
    result_table[1..count].copy_from_slice(exponents);
    count
}

// Writes a polynomial at the start of the table, and leaves the rest. Room is asked, as every write into a slice asks it.
pub(crate) fn write_terms(terms: &[Term], result_table: &mut [u16])
    requires { length (flat (view terms.now)) ≤ length result_table.old }
    ensures { result_table.new ≡ written (view terms.now) result_table.old }
{
    let mut start = 0;
    // where a term ends the next one begins: an iterator over equal parts would need the number of variables beside
    for term in terms {
        start += write_term(term, &mut result_table[start..]);
    }
}
