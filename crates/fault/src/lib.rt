// Why a call is refused, and the five numbers that say so.
#![tactic(auto)]

mod fault;
mod numbers;

pub use fault::{ArithmeticFault, Fault, Place, TableFault, Work};
pub use numbers::FaultNumbers;
