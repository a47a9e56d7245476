// The division of a question.
ghost use Rattle.std.specs.Prelude.{◌≡◌, ◌≤◌, length, OnOk};
ghost use Rattle.polynomial.specs.Results.{answered};
ghost use Rattle.polynomial.specs.Rings.{arithmetic_of, comparison_of, Within};
ghost use Rattle.polynomial.specs.Views.{view};
ghost use Rattle.calls.specs.Asking.{remainder_asked};
ghost use Rattle.calls.specs.Shown.{shown, Same};

use crate::held::Checker;
use crate::held::state::enter;
use combination::{in_table, in_work};
use fault::{Fault, Place, Work};
use field::Field;
use order::MonomialOrder;
use polynomial::{Family, TableSize};
use run::CallKind;

impl<F: Field + Drop, O: MonomialOrder + Drop> Checker<F, O> {
    // Divides the polynomial of a question's table.
    pub(crate) fn divide_question(&mut self, table: &[u16]) -> Result<(), Fault>
        ensures value { answered result (view self.new.division.remainder.terms.items) ≡ remainder_asked (arithmetic_of self.old.check.ring) (comparison_of self.old.check.ring) (shown self.old) table.now }
        ensures same { Same self.old self.new }
        ensures within { OnOk result (Within self.old.check.ring (view self.new.division.remainder.terms.items)) }
        ensures few { OnOk result (length self.new.division.remainder.terms.items ≤ 512) }
    {
        enter(&mut self.state, CallKind::Question)?;
        in_table(
            Place::Question,
            self.check
                .ring()
                .read(TableSize::Long, table, &mut self.reading),
        )?;
        let basis = Family {
            ring: self.check.ring(),
            list: &self.basis,
        };
        in_work(
            Work::Question,
            self.division.divide(&basis, self.reading.terms()),
        )?;
        Ok(())
    }
}
