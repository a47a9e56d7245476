// Reads the three lines of the head.
mod names;
mod values;

pub use names::count_names;
pub use values::{is_title, read_values};

// The kind of a field.
#[derive(Clone, Copy, PartialEq, Eq, Debug)]
pub enum Kind {
    Residue,
    Bits,
}

// The order of the monomials.
#[derive(Clone, Copy, PartialEq, Eq, Debug)]
pub enum Order {
    Lex,
    Graded,
    Reverse,
}

// The second line.
#[derive(Clone, Copy, PartialEq, Eq, Debug)]
pub struct FieldLine {
    pub kind: Kind,
    pub size: u16,
    pub order: Order,
}
