// Calls made one after another.
ghost use Rattle.std.specs.Prelude.{◌≡◌, IfOk};
ghost use Rattle.calls.specs.Shown.{Promise};
ghost use Rattle.calls.specs.Sequences.{request, spoken, left_by, Sequence};

use crate::call::{Call, Reply};
use crate::held::Checker;
use field::Field;
use order::MonomialOrder;
use std::alloc::{AllocError, Global};

impl<F: Field + Drop, O: MonomialOrder + Drop> Checker<F, O> {
    // Makes one call; a question writes into the result table. A call is data, so one match takes it apart.
    pub fn call(&mut self, call: &Call, result_table: &mut [u16]) -> Reply
        ensures promise { Promise self.old (request call.now result_table.old) (spoken result result_table.new) self.new }
        ensures table { result_table.new ≡ left_by (spoken result result_table.new) result_table.old }
    {
        match *call {
            Call::Open(variables) => self.open(variables)?,
            Call::Rule(table) => self.rule(table)?,
            Call::Close => self.close()?,
            Call::Offer(offered) => self.offer(&offered)?,
            Call::Finish => self.finish()?,
            Call::Question(table) => return Ok(Some(self.question(table, result_table)?)),
        }
        Ok(None)
    }
}

// Makes a checker, and then every call of the list; the questions share the result table.
pub fn run_calls<F: Field + Drop, O: MonomialOrder + Drop>(
    heap: Global,
    field: F,
    order: O,
    calls: &[Call],
    result_table: &mut [u16],
) -> Result<Vec<Reply>, AllocError>
    ensures { IfOk result (λ replies. Sequence (F.arithmetic field) (O.comparison order) calls.now result_table.old replies.items result_table.new) }
{
    let mut checker = Checker::new(heap, field, order)?;
    let mut replies = Vec::with_capacity(heap, calls.len())?;
    for call in calls {
        replies.push_reserved(checker.call(call, result_table));
    }
    Ok(replies)
}
