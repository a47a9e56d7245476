// What a checker is ready for, and what can be asked of it.

#[derive(Clone, Copy, PartialEq, Eq, Debug)]
pub enum State {
    // generators are taken
    Generators,
    // basis elements are taken
    Elements,
    // the basis is complete: questions are answered
    Passed,
}

#[derive(Clone, Copy, PartialEq, Eq, Debug)]
pub enum CallKind {
    Open,
    Rule,
    Close,
    Offer,
    Finish,
    Question,
}
