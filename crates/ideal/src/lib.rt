// The algebra of polynomials, and what division by a basis decides: each function's contract is a theorem,
// for every field and every monomial order.
#![tactic(auto)]

ghost use Rattle.ideal.specs.Algebra.{Always, Closed, SumCoefficients, MultipleCoefficients, Determined, Stepwise};
ghost use Rattle.ideal.specs.Theorems.{MembersClosed, DivisionEnds, DivisionTheorem, Buchberger, CompletenessBothWays, Membership, OneRemainder};

// What is computed from polynomials is a polynomial.
pub fn algebra_closed()
    ensures { Always Closed }
{}

// A sum's coefficients are the sums of the coefficients.
pub fn sum_coefficients()
    ensures { Always SumCoefficients }
{}

// A multiple's coefficients are the products, at the multiplied monomials, and 0 elsewhere.
pub fn multiple_coefficients()
    ensures { Always MultipleCoefficients }
{}

// Polynomials with equal coefficients are equal.
pub fn determined_by_coefficients()
    ensures { Always Determined }
{}

// To add one multiple after another, from 0, makes the combination.
pub fn stepwise_combination()
    ensures { Always Stepwise }
{}

// 0 and the generators are in the ideal, and so are sums, differences and multiples of its members.
pub fn members_closed()
    ensures { Always MembersClosed }
{}

// Every division ends, more turns change nothing, and there is one remainder.
pub fn division_ends()
    ensures { Always DivisionEnds }
{}

// The dividend is a combination of the elements, no product of which is above it, and a remainder with no divisible term.
pub fn division_theorem()
    ensures { Always DivisionTheorem }
{}

// Elements whose S-polynomials all divide to 0 are a Gröbner basis of their ideal.
pub fn buchberger_criterion()
    ensures { Always Buchberger }
{}

// Generators and S-polynomials all divide to 0 exactly if the elements are a Gröbner basis of the generators' ideal.
pub fn completeness_both_ways()
    ensures { Always CompletenessBothWays }
{}

// By such a basis, a polynomial is a member of the ideal exactly if its remainder is 0.
pub fn membership_by_remainder()
    ensures { Always Membership }
{}

// By two such bases, two polynomials have one remainder exactly if their difference is a member.
pub fn one_remainder()
    ensures { Always OneRemainder }
{}
