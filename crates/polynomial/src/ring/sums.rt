// Sums of polynomials, within limits.
// Clauses say `Within` of single slices: a type cannot name the value of a ring, and a ring beside a slice would have to say that two rings are equal instead.
ghost use Rattle.std.specs.Prelude.{◌≡◌, ◌+◌, ◌<◌, ◌≤◌, ◌++◌, length};
ghost use Rattle.std.specs.Option.{option_to_list};
ghost use Rattle.ideal.specs.Polynomials.{sum};
ghost use Rattle.polynomial.specs.Limits.{bounded, united};
ghost use Rattle.polynomial.specs.Results.{answered};
ghost use Rattle.polynomial.specs.Rings.{arithmetic_of, over, Within};
ghost use Rattle.polynomial.specs.Views.{term_of, view};

use crate::flaw::Limit;
use crate::polynomial::Polynomial;
use crate::ring::Ring;
use crate::term::Term;
use field::Field;
use order::MonomialOrder;
use std::cmp::Ordering;

// One step of a sum: its next term, if the leading terms do not cancel, and what is left of both polynomials.
#[derive(Clone, Copy, PartialEq, Eq, Debug)]
struct Next<'a> {
    term: Option<Term>,
    p: &'a [Term],
    q: &'a [Term],
}

impl<F: Field, O: MonomialOrder> Ring<F, O> {
    // Two terms with one monomial, united.
    fn unite(&self, x: Term, y: Term) -> Option<Term>
        requires x_code { x.coefficient < (arithmetic_of self.now).size }
        requires y_code { y.coefficient < (arithmetic_of self.now).size }
        ensures { view (option_to_list result) ≡ united (over self.now) (term_of x) (term_of y) }
    {
        let coefficient = self.plus(x.coefficient, y.coefficient);
        (coefficient != 0).then_some(Term {
            coefficient,
            monomial: y.monomial,
        })
    }

    // The next step of the sum of p and q, of which something is left. That is asked, and there is no `Option` around the step: in one, each term
    // was copied once more, which took half again the time of a sum.
    fn next<'a>(&self, p: &'a [Term], q: &'a [Term]) -> Next<'a>
        requires p_within { Within self.now (view p.now) }
        requires q_within { Within self.now (view q.now) }
        requires some { 0 < length p.now + length q.now }
        ensures falls { length result.p.now + length result.q.now < length p.now + length q.now }
        ensures within { Within self.now (view result.p.now) × Within self.now (view result.q.now) }
        ensures sum { sum (over self.now) (view p.now) (view q.now) ≡ view (option_to_list result.term) ++ sum (over self.now) (view result.p.now) (view result.q.now) }
    {
        let [x, later_p @ ..] = p else {
            return Next {
                term: Some(q[0]),
                p,
                q: &q[1..],
            };
        };
        let [y, later_q @ ..] = q else {
            return Next {
                term: Some(*x),
                p: later_p,
                q,
            };
        };
        let (x, y) = (*x, *y);
        match self.compare(&x.monomial, &y.monomial) {
            Ordering::Less => Next {
                term: Some(y),
                p,
                q: later_q,
            },
            Ordering::Greater => Next {
                term: Some(x),
                p: later_p,
                q,
            },
            Ordering::Equal => Next {
                term: self.unite(x, y),
                p: later_p,
                q: later_q,
            },
        }
    }

    // The sum of p and q, if it has at most `room` terms.
    pub(crate) fn sum(
        &self,
        room: usize,
        p: &[Term],
        q: &[Term],
        out: &mut Polynomial,
    ) -> Result<(), Limit>
        requires p_within { Within self.now (view p.now) }
        requires q_within { Within self.now (view q.now) }
        requires room { room ≤ 512 }
        ensures { answered result (view out.new.terms.items) ≡ bounded room (sum (over self.now) (view p.now) (view q.now)) }
    {
        out.terms.clear();
        let (mut p, mut q) = (p, q);
        while !p.is_empty() || !q.is_empty() {
            let next = self.next(p, q);
            p = next.p;
            q = next.q;
            if let Some(term) = next.term {
                if out.terms.len() >= room {
                    return Err(Limit::Terms);
                }
                out.terms.push_reserved(term);
            }
        }
        Ok(())
    }
}
