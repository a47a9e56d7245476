// What the outcomes of limited division and of limited S-polynomials mean, for every field and every monomial order.
ghost use Rattle.ideal.specs.Algebra.{Always};
ghost use Rattle.division.specs.Bounds.{DivisionLaw, PairLaw};

// Limited division ends in the turns it is given, and a remainder is the one that division without limits leaves.
pub fn limited_division()
    ensures { Always DivisionLaw }
{}

// An S-polynomial within the limits is the S-polynomial.
pub fn limited_s_polynomial()
    ensures { Always PairLaw }
{}
