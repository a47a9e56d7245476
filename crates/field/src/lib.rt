// The arithmetic of small finite fields: prime fields and binary fields.
#![tactic(auto)]

mod binary;
mod fault;
mod field;
mod prime;

pub use binary::BinaryField;
pub use fault::FieldFault;
pub use field::Field;
pub use prime::PrimeField;
