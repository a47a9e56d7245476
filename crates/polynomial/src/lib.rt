// Polynomials as data: monomials, terms, tables in, and sums that grow step by step within limits.
#![tactic(auto)]

mod accumulator;
mod equality;
mod family;
mod flaw;
mod list;
mod monomial;
mod multiple;
mod polynomial;
mod ring;
mod term;

pub use accumulator::Accumulator;
pub use equality::are_equal;
pub use family::Family;
pub use flaw::{Flaw, Limit, TableSize, Unkept, VariableCountError};
pub use list::{MOST_POLYNOMIALS, PolynomialList};
pub use monomial::{Monomial, multipliers};
pub use multiple::Multiple;
pub use polynomial::Polynomial;
pub use ring::Ring;
pub use term::Term;
