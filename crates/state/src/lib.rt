// Where a search in slices stands (request E7), by value, and whether its numbers are in range.
#![tactic(auto)]

ghost use Rattle.state.specs.Row.{state_wrong};
ghost use Rattle.rules.specs.Answers.{Tested};

use counting::Counts;
use formula::kinds::Node;
use split::Cursor;

// Whether the walk has more to try, or how it ended. A state that a caller makes up may have any other number there: it stands for an ended walk.
#[derive(Clone, Copy, Debug, PartialEq, Eq)]
pub enum End {
    More,
    Found,
    None,
    Full,
    Other(u64),
}

impl From<End> for u64 {
    ghost use Rattle.std.specs.Prelude.{◌≡◌};
    ghost use Rattle.state.specs.Ends.{end_number};

    ghost from_gives = { λ end number. number ≡ end_number end };

    fn from(end: End) -> u64 {
        match end {
            End::More => 0,
            End::Found => 1,
            End::None => 2,
            End::Full => 3,
            End::Other(number) => number,
        }
    }
}

// The size, the cursor before its next candidate and the counts: with the table it is all that the next call needs to go on. `root` is FOUND's root node. It
// stands beside the end, since a state that a caller hands in may have one at any end, and one that has ended is handed back as it was.
#[derive(Clone, Copy)]
pub struct State {
    pub size: usize,
    pub at: Cursor,
    pub counts: Counts,
    pub end: End,
    pub root: Node,
}

// Whether 14 refuses a state, by the numbers of propositions, bound and room, the mark of the constants and the lengths of the two lists of operators.
// No sum is made, so that nothing is asked of the numbers.
pub fn wrong(
    m: usize,
    bound: usize,
    room: usize,
    constants: u8,
    unary: usize,
    binary: usize,
    state: State,
) -> bool
    ensures { Tested (state_wrong m bound room constants unary binary state).given result }
{
    let kept = state.counts.kept;
    if room < kept {
        return true;
    }
    if state.counts.tried < kept as u64 {
        return true;
    }
    if state.size < 1 {
        return true;
    }
    if bound < state.size {
        return true;
    }
    if kept < state.at.left {
        return true;
    }
    if kept < state.at.right {
        return true;
    }
    let operator = state.at.operator;
    if state.size == 1 {
        if constants == 1 {
            if operator < 2 {
                return false;
            }
            return m < operator - 2;
        }
        return m < operator;
    }
    if state.at.split == 0 {
        return unary < operator;
    }
    if binary < operator {
        return true;
    }
    false
}
