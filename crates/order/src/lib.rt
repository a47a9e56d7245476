#![tactic(auto)]

mod degrees;
mod exponents;
mod graded;
mod lex;
mod order;
mod reverse;

pub use exponents::{MOST_EXPONENT, MOST_VARIABLES, is_small};
pub use graded::Graded;
pub use lex::Lex;
pub use order::MonomialOrder;
pub use reverse::Reverse;
