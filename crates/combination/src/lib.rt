// Checks that an offered basis element is the stated combination of the generators.
#![tactic(auto)]

mod check;
mod combination;
mod table;

pub use check::{ElementCheck, Offered};
pub use combination::{in_table, in_work};
