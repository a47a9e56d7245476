// The checker: the six calls.
#![tactic(auto)]

mod call;
mod held;
mod sequence;
#[cfg(test)]
mod tests;
mod writing;

pub use call::{Call, Reply};
pub use combination::Offered;
pub use held::Checker;
pub use sequence::run_calls;
