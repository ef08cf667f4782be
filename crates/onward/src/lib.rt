// Onward from a state of the search: over the ends of sizes to the next candidate, or to the state that is answered.
#![tactic(auto)]

pub mod ends;

ghost use Rattle.std.specs.Prelude.{◌≡◌, ◌+◌, ◌^◌, ◌<◌};
ghost use Rattle.onward.specs.Onward.{up_to, starts_at, begin_state, turn_of, Seeks};

use formula::kinds::Node;
use split::{Candidate, Cursor};
use starts::of_table;
use state::{End, State};

// Where the walk stands once the ends of sizes are passed over, and the step from there.
#[derive(Clone, Copy)]
pub struct Seen {
    pub state: State,
    pub step: Option<Candidate>,
}

// The state that is answered; or a candidate that is tried, with the state before it and the cursor after it.
#[derive(Clone, Copy)]
pub enum Turn {
    Rests(State),
    Tries {
        state: State,
        node: Node,
        next: Cursor,
    },
}

// Where the sizes of the kept formulas begin. A count above a place's kind, which no table has, is taken for 0.
pub fn starts_at(sizes: &[u8], kept: usize) -> [u16; starts::COUNT]
    ensures { result ≡ starts_at sizes.now kept }
{
    of_table(sizes, u16::try_from(kept).unwrap_or(0))
}

// The state before the first candidate of the next size, by where the sizes begin.
fn begin(starts: &[u16], before: State) -> State
    requires { before.size + 1 < 2 ^ 64 }
    ensures { result ≡ begin_state starts.now before }
{
    let size = before.size + 1;
    let at = order::first(starts, size);
    ends::more(size, at, before.counts)
}

// From a state on over the ends of sizes: to the next candidate, or to the end of the last size. A walk that has ended stays where it is.
pub fn seek(
    m: usize,
    bound: usize,
    constants: u8,
    sizes: &[u8],
    unary: &[u8],
    binary: &[u8],
    from: State,
    starts: &mut [u16; starts::COUNT],
) -> Seen
    ensures { Seeks (up_to 255 m) bound constants sizes.now unary.now binary.now from starts.old starts.new result }
{
    if from.end != End::More {
        return Seen {
            state: from,
            step: None,
        };
    }
    // Above a byte there is no number of propositions.
    let propositions = u8::try_from(m).unwrap_or(0);
    let mut state = from;
    loop {
        let step = order::next(
            state.at,
            starts,
            state.size,
            propositions,
            constants,
            unary,
            binary,
        );
        if step.is_some() || bound <= state.size {
            return Seen { state, step };
        }
        *starts = starts_at(sizes, state.counts.kept);
        state = begin(starts, state);
    }
}

// The candidate is tried while the budget lasts; after the last one it is NONE.
pub fn turn_of(seen: Seen, left: u64) -> Turn
    ensures { result ≡ turn_of seen left }
{
    let state = seen.state;
    if state.end != End::More {
        return Turn::Rests(state);
    }
    let Some(candidate) = seen.step else {
        return Turn::Rests(ends::none(state.size, state.counts));
    };
    if left == 0 {
        return Turn::Rests(ends::more(state.size, state.at, state.counts));
    }
    let node = Node {
        code: candidate.code,
        left: candidate.left,
        right: candidate.right,
        size: u8::try_from(state.size).unwrap_or(0),
    };
    Turn::Tries {
        state,
        node,
        next: candidate.next,
    }
}
