// Worked examples, proved of the definitions, and tests of the code on outside numbers.
#![tactic(auto)]

ghost use Rattle.cases.specs.Worked.{Worked};

#[cfg(test)]
mod division_limits;
#[cfg(test)]
mod divisions;
#[cfg(test)]
mod fields;
#[cfg(test)]
mod monomials;
#[cfg(test)]
mod orders;
#[cfg(test)]
mod reading;
#[cfg(test)]
mod refusals;
#[cfg(test)]
mod steps;

// Each worked example comes out as it should.
pub fn worked_examples()
    ensures { Worked }
{}
