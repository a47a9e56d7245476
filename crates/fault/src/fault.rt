// Why a call is refused. Each layer carries the fault of the layer below whole.
ghost use Rattle.std.specs.Prelude.{◌≡◌};
ghost use Rattle.fault.specs.declared.fault.Fault.TheVariants.{Field as FieldLayer, Variables, Table as TableLayer, Arithmetic as ArithmeticLayer};

use field::FieldFault;
use polynomial::{Flaw, Limit, VariableCountError};

// Whose table it is, by number from 0.
#[derive(Clone, Copy, PartialEq, Eq, Debug)]
pub enum Place {
    Generator(usize),
    Element(usize),
    Cofactor(usize),
    Question,
}

// What is wrong with the tables handed in.
#[derive(Clone, Copy, PartialEq, Eq, Debug)]
pub enum TableFault {
    // a table by itself
    Flawed(Place, Flaw),
    // the element of that number is 0
    NoTerm(usize),
    // there are not as many counts as generators
    CofactorCount,
    // the result table is too short for the remainder
    NoRoom,
}

// What a limit stopped.
#[derive(Clone, Copy, PartialEq, Eq, Debug)]
pub enum Work {
    // dividing the generator of that number
    Generator(usize),
    // adding the product of a generator and a term of its cofactor: the cofactor's number and the term's
    CofactorTerm(usize, usize),
    // dividing what is asked about
    Question,
    // forming and dividing the S-polynomial of the elements of these numbers
    Pair(usize, usize),
}

#[derive(Clone, Copy, PartialEq, Eq, Debug)]
pub struct ArithmeticFault {
    pub work: Work,
    pub limit: Limit,
}

#[derive(Clone, Copy, PartialEq, Eq, Debug)]
pub enum Fault {
    // a field that is not made
    Field(FieldFault),
    // a number of variables that is not from 1 to 24
    Variables,
    // the state does not allow the call
    State,
    // 32 generators, or 32 elements, are held already
    Full,
    Table(TableFault),
    Arithmetic(ArithmeticFault),
    // the element of that number is not the sum of cofactor × generator
    NotTheSum(usize),
    // the generator of that number leaves a remainder
    GeneratorLeft(usize),
    // the S-polynomial of the elements of these numbers leaves a remainder
    PairLeft(usize, usize),
}

// A `From` is written out: a derived one promises nothing of what it makes.
impl From<FieldFault> for Fault {
    ghost from_gives = { λ e f. f ≡ FieldLayer e };

    fn from(fault: FieldFault) -> Fault {
        Fault::Field(fault)
    }
}

impl From<TableFault> for Fault {
    ghost from_gives = { λ e f. f ≡ TableLayer e };

    fn from(fault: TableFault) -> Fault {
        Fault::Table(fault)
    }
}

impl From<ArithmeticFault> for Fault {
    ghost from_gives = { λ e f. f ≡ ArithmeticLayer e };

    fn from(fault: ArithmeticFault) -> Fault {
        Fault::Arithmetic(fault)
    }
}

impl From<VariableCountError> for Fault {
    ghost from_gives = { λ e f. f ≡ Variables };

    fn from(_: VariableCountError) -> Fault {
        Fault::Variables
    }
}
