// The refusal of a budget that is too large, and that of a state, which comes after all others.
ghost use Rattle.std.specs.Prelude.{[], ◌∷◌};
ghost use Rattle.rules.specs.Refusals.{Decided, number_of, refusal_number};
ghost use Rattle.state.specs.Row.{state_wrong};
ghost use Rattle.slices.specs.Inner.{OneOrTwo};

use rules::refusal::Refusal;
use state::State;

// 1 comes before 2.
pub(crate) fn one_or_two(r: usize, m: usize) -> Refusal
    ensures { OneOrTwo r m (refusal_number result) }
{
    if session::data::outside(r, m) {
        return Refusal::Numbers;
    }
    Refusal::Settings
}

// 14 where the state is wrong.
pub(crate) fn then_state(
    m: usize,
    bound: usize,
    room: usize,
    constants: u8,
    unary: usize,
    binary: usize,
    state: State,
) -> Result<(), Refusal>
    ensures { Decided (state_wrong m bound room constants unary binary state ∷ []) (number_of result) }
{
    if state::wrong(m, bound, room, constants, unary, binary, state) {
        return Err(Refusal::State);
    }
    Ok(())
}
