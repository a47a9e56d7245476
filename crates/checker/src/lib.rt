// Holds generators, and checks that an offered basis element is the stated combination of them.
#![tactic(auto)]

mod checker;

pub use checker::ElementChecker;
pub use combination::Offered;
pub use fault::{ArithmeticFault, Fault, FaultNumbers, Place, TableFault, Work};
