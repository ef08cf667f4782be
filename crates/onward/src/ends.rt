// The states that the loop answers: before a candidate, after the last one, and after one by its fate.
ghost use Rattle.std.specs.Prelude.{◌≡◌};
ghost use Rattle.formula.specs.Kinds.{no_node};
ghost use Rattle.onward.specs.Onward.{more_state, end_state, none_state, after_state};

use counting::{Counts, Fate, count};
use formula::kinds::Node;
use rules::kinds::Place;
use split::Cursor;
use state::{End, State};

// The root where there is none.
pub(crate) fn no_node() -> Node
    ensures { result ≡ no_node }
{
    Node {
        code: 0,
        left: Place(0),
        right: Place(0),
        size: 0,
    }
}

// The state before a candidate.
pub(crate) fn more(size: usize, at: Cursor, counts: Counts) -> State
    ensures { result ≡ more_state size at counts }
{
    State {
        size,
        at,
        counts,
        end: End::More,
        root: no_node(),
    }
}

// A state of the walk's end.
fn end_of(size: usize, counts: Counts, end: End, root: Node) -> State
    ensures { result ≡ end_state size counts end root }
{
    State {
        size,
        at: Cursor::at_leaf(0),
        counts,
        end,
        root,
    }
}

// After the last candidate it is NONE.
pub(crate) fn none(size: usize, counts: Counts) -> State
    ensures { result ≡ none_state size counts }
{
    end_of(size, counts, End::None, no_node())
}

// The state after a candidate, which is counted: before the next one, or at the walk's end, which at FOUND has the candidate as its root.
pub fn after(size: usize, counts: Counts, next: Cursor, fate: Fate, node: Node) -> State
    ensures { result ≡ after_state size counts next fate node }
{
    let counted = count(fate, counts);
    match fate {
        Fate::Found => end_of(size, counted, End::Found, node),
        Fate::Full => end_of(size, counted, End::Full, no_node()),
        Fate::Dropped | Fate::Kept => more(size, next, counted),
    }
}
