// The five numbers of a fault.
ghost use Rattle.std.specs.Prelude.{◌≡◌};
ghost use Rattle.fault.specs.Numbers.{five, layer_number, subject_number, place_numbers, table_numbers, arithmetic_numbers, numbers};

use crate::fault::{ArithmeticFault, Fault, Place, TableFault, Work};
use field::FieldFault;
use polynomial::{Flaw, Limit};

// Five plain numbers: the form in which a fault is handed to whoever reads it.
#[derive(Clone, Copy, PartialEq, Eq, Debug)]
pub struct FaultNumbers {
    pub refusal: u16,
    pub layer: u16,
    pub subject: u16,
    pub first: usize,
    pub second: usize,
}

// Which layer refuses, by its number.
#[derive(Clone, Copy, PartialEq, Eq, Debug)]
enum Layer {
    Field = 1,
    Table = 2,
    Arithmetic = 3,
    Check = 4,
}

// What is at fault, by its number.
#[derive(Clone, Copy, PartialEq, Eq, Debug)]
enum Subject {
    None = 0,
    Generator = 1,
    Element = 2,
    Cofactor = 3,
    Question = 4,
    Pair = 5,
}

// The refusals stay numbers: each stands once, beside its fault, and an enum would only say the faults again.
fn five(refusal: u16, layer: Layer, subject: Subject, first: usize, second: usize) -> FaultNumbers
    ensures { result ≡ five refusal (layer_number layer) (subject_number subject) first second }
{
    FaultNumbers {
        refusal,
        layer: layer as u16,
        subject: subject as u16,
        first,
        second,
    }
}

// A table that is flawed by itself.
fn of_flaw(place: Place, flaw: Flaw) -> FaultNumbers
    ensures { result ≡ place_numbers place flaw }
{
    let (subject, first) = match place {
        Place::Generator(number) => (Subject::Generator, number),
        Place::Element(number) => (Subject::Element, number),
        Place::Cofactor(number) => (Subject::Cofactor, number),
        Place::Question => (Subject::Question, 0),
    };
    let (refusal, second) = match flaw {
        Flaw::Length => (4, 0),
        Flaw::Terms => (5, 0),
        Flaw::Coefficient(term) => (6, term),
        Flaw::Exponent(term) => (7, term),
        Flaw::Order(term) => (8, term),
    };
    five(refusal, Layer::Table, subject, first, second)
}

// The numbers of each fault by a method: a `From` would want the same clause, and a call of it says less.
impl TableFault {
    pub fn numbers(&self) -> FaultNumbers
        ensures { result ≡ table_numbers self.now }
    {
        let layer = Layer::Table;
        match *self {
            TableFault::Flawed(place, flaw) => of_flaw(place, flaw),
            TableFault::NoTerm(number) => five(9, layer, Subject::Element, number, 0),
            TableFault::CofactorCount => five(10, layer, Subject::None, 0, 0),
            TableFault::NoRoom => five(16, layer, Subject::Question, 0, 0),
        }
    }
}

// One match for each kind of fault: they are alike in shape, and every line is another fault.
impl ArithmeticFault {
    pub fn numbers(&self) -> FaultNumbers
        ensures { result ≡ arithmetic_numbers self.now }
    {
        let refusal = match self.limit {
            Limit::Exponent => 11,
            Limit::Terms => 12,
        };
        let (subject, first, second) = match self.work {
            Work::Generator(number) => (Subject::Generator, number, 0),
            Work::CofactorTerm(number, term) => (Subject::Cofactor, number, term),
            Work::Question => (Subject::Question, 0, 0),
            Work::Pair(first, second) => (Subject::Pair, first, second),
        };
        five(refusal, Layer::Arithmetic, subject, first, second)
    }
}

impl Fault {
    pub fn numbers(&self) -> FaultNumbers
        ensures { result ≡ numbers self.now }
    {
        let layer = Layer::Check;
        match *self {
            Fault::Field(FieldFault::UnlistedSize) => five(17, Layer::Field, Subject::None, 0, 0),
            Fault::Variables => five(1, layer, Subject::None, 0, 0),
            Fault::State => five(2, layer, Subject::None, 0, 0),
            Fault::Full => five(3, layer, Subject::None, 0, 0),
            Fault::Table(fault) => fault.numbers(),
            Fault::Arithmetic(fault) => fault.numbers(),
            Fault::NotTheSum(number) => five(13, layer, Subject::Element, number, 0),
            Fault::GeneratorLeft(number) => five(14, layer, Subject::Generator, number, 0),
            Fault::PairLeft(first, second) => five(15, layer, Subject::Pair, first, second),
        }
    }
}
