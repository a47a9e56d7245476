// Division and S-polynomials, within limits.
#![tactic(auto)]

mod coefficient;
mod division;
mod divisor;
mod laws;
mod pair;

pub use division::Division;
pub use divisor::{Divisor, find_divisor};
pub use laws::{limited_division, limited_s_polynomial};
pub use pair::Pair;
