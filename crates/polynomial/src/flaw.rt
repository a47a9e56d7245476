// What can be wrong with a table, which limit a step can meet, and what is not kept.

// How many terms a table may have.
#[derive(Clone, Copy, PartialEq, Eq, Debug)]
pub enum TableSize {
    // 32 terms: what is kept
    Short,
    // 512 terms: what is only asked about
    Long,
}

// What is wrong with one table; the last three carry the number of the term.
#[derive(Clone, Copy, PartialEq, Eq, Debug)]
pub enum Flaw {
    // its length is no multiple of the numbers in a term
    Length,
    // it has more terms than allowed
    Terms,
    // a coefficient is 0 or no code
    Coefficient(usize),
    // an exponent is over 255
    Exponent(usize),
    // a monomial is not lower than the one before
    Order(usize),
}

#[derive(Clone, Copy, PartialEq, Eq, Debug)]
pub enum Limit {
    // an exponent of a product passes 255
    Exponent,
    // a polynomial comes to more than 512 terms
    Terms,
}

// Why a list does not keep one more polynomial.
#[derive(Clone, Copy, PartialEq, Eq, Debug)]
pub enum Unkept {
    // 32 polynomials are kept already
    ListFull,
    // the polynomial has more than 32 terms
    TooLong,
}

// A number of variables is not from 1 to 24.
#[derive(Clone, Copy, PartialEq, Eq, Debug)]
pub struct VariableCountError;
