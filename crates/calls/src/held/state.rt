// Which calls a state takes.
ghost use Rattle.std.specs.Prelude.{◌≡◌, OnErr};
ghost use Rattle.polynomial.specs.Results.{answered};
ghost use Rattle.run.specs.Models.{entered};

use fault::Fault;
use run::{CallKind, State};

// Whether the state allows the call; the state becomes that in which the call is taken. One table of values: it chooses no step to run.
pub(crate) fn enter(state: &mut State, kind: CallKind) -> Result<(), Fault>
    ensures state { answered result state.new ≡ entered state.old kind }
    ensures kept { OnErr result (state.new ≡ state.old) }
{
    match (*state, kind) {
        (_, CallKind::Open) => *state = State::Generators,
        (State::Generators, CallKind::Rule) => {}
        (State::Generators, CallKind::Close) => *state = State::Elements,
        (State::Elements, CallKind::Offer) => {}
        (State::Elements, CallKind::Finish) => {}
        (State::Passed, CallKind::Question) => {}
        _ => return Err(Fault::State),
    }
    Ok(())
}
