// The search in slices (request E7): a call goes on from the state of the call before for at most so many candidates.
#![tactic(auto)]

mod good;

ghost use Rattle.std.specs.Prelude.{◌≡◌};
ghost use Rattle.walk.specs.Input.{input_of};
ghost use Rattle.table.specs.Slices.{cols};
ghost use Rattle.slices.specs.Slices.{fresh_state};
ghost use Rattle.slices.specs.Resume.{Advanced, Called};

use counting::Counts;
use formula::kinds::Node;
use rules::kinds::Place;
use rules::refusal::Refusal;
use split::Cursor;
use state::{End, State};

// A state of which nothing is tried.
pub fn fresh() -> State
    ensures { result ≡ fresh_state }
{
    State {
        size: 1,
        at: Cursor {
            split: 0,
            left: 0,
            right: 0,
            operator: 0,
            second: false,
        },
        counts: Counts {
            tried: 0,
            kept: 0,
            dropped: 0,
        },
        end: End::More,
        root: Node {
            code: 0,
            left: Place(0),
            right: Place(0),
            size: 0,
        },
    }
}

// The search from a state on, for at most `budget` candidates, however many: it takes what the search takes and refuses as the search does, and last with 14 a
// state whose numbers are out of range. A walk that has ended stays as it is.
pub fn advance(
    r: usize,
    m: usize,
    bound: usize,
    room: usize,
    constants: u8,
    marks: &[u8],
    lengths: &[u8],
    words: &[u64],
    unary: &[u8],
    binary: &[u8],
    budget: u64,
    state: State,
    codes: &mut [u8],
    lefts: &mut [u16],
    rights: &mut [u16],
    sizes: &mut [u8],
    matrices: &mut [u64],
) -> Result<State, Refusal>
    ensures { Advanced
        (input_of r m bound room constants marks.now lengths.now words.now unary.now binary.now)
        (cols codes.old lefts.old rights.old sizes.old matrices.old)
        budget state result
        (cols codes.new lefts.new rights.new sizes.new matrices.new) }
{
    checks::check(
        r, m, bound, room, constants, marks, lengths, words, unary, binary, codes, lefts, rights,
        sizes, matrices,
    )?;
    good::then_state(m, bound, room, constants, unary.len(), binary.len(), state)?;
    Ok(turns::go_on(
        r, m, bound, room, constants, marks, lengths, words, unary, binary, budget, state, codes,
        lefts, rights, sizes, matrices,
    ))
}

// The search in slices: as `advance`, with a budget of at most 1,000,000 candidates; more is refused with 2.
pub fn resume(
    r: usize,
    m: usize,
    bound: usize,
    room: usize,
    constants: u8,
    marks: &[u8],
    lengths: &[u8],
    words: &[u64],
    unary: &[u8],
    binary: &[u8],
    budget: u64,
    state: State,
    codes: &mut [u8],
    lefts: &mut [u16],
    rights: &mut [u16],
    sizes: &mut [u8],
    matrices: &mut [u64],
) -> Result<State, Refusal>
    ensures { Called
        (input_of r m bound room constants marks.now lengths.now words.now unary.now binary.now)
        (cols codes.old lefts.old rights.old sizes.old matrices.old)
        budget state result
        (cols codes.new lefts.new rights.new sizes.new matrices.new) }
{
    if rules::BUDGET < budget {
        return Err(good::one_or_two(r, m));
    }
    advance(
        r, m, bound, room, constants, marks, lengths, words, unary, binary, budget, state, codes,
        lefts, rights, sizes, matrices,
    )
}
