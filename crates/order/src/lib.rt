// The candidates of a size in document 01's order, one at a time, by a cursor that knows no matrix (the loops of aux.rs and cache.rs).
#![tactic(auto)]

ghost use Rattle.std.specs.Prelude.{◌≡◌, ◌+◌, ◌^◌, ◌≤◌, ◌<◌, length};
ghost use Rattle.split.specs.Split.{cand, candidate_of, InPart};
ghost use Rattle.order.specs.Size.{layer_of};
ghost use Rattle.order.specs.Ahead.{leaf_cursor, split_codes, first};
ghost use Rattle.order.specs.Steps.{Steps};
ghost use Rattle.order.specs.Inner.{InLeaves, part_of, part_start, InParts};

use formula::kinds::{FALSE, PROPOSITION, TRUE};
use rules::kinds::{Place, Proposition};
use split::{Candidate, Cursor, Part};

// A leaf by its code and left field, at a position in the list of leaves, and the cursor before the next one.
fn leaf(code: u8, left: Place, position: usize) -> Candidate
    requires { position + 1 < 2 ^ 64 }
    ensures { result ≡ candidate_of (cand code left.0 0) (leaf_cursor (position + 1)) }
{
    Candidate {
        code,
        left,
        right: Place(0),
        next: Cursor::at_leaf(position + 1),
    }
}

// The leaves: the propositions in order, then, if constants are asked for, false, then true.
fn leaf_step(at: Cursor, propositions: u8, constants: u8) -> Option<Candidate>
    ensures { InLeaves propositions constants at result }
{
    let o = at.operator;
    let m = propositions as usize;
    if o < m {
        return Some(leaf(PROPOSITION, Proposition(o as u8).to_left(), o));
    }
    if constants != 1 {
        return None;
    }
    if o == m {
        return Some(leaf(FALSE, Place(0), o));
    }
    if o == m + 1 {
        return Some(leaf(TRUE, Place(0), o));
    }
    None
}

// The places of split i of size s. Split 0 has the unary operators: places of size s-1 to the left, and to the right the one number 0.
fn part_of(starts: &[u16], s: usize, i: usize) -> Part
    requires { (i < s) × (s < length starts.now) }
    ensures { result ≡ part_of starts.now s i }
{
    if i == 0 {
        return Part {
            end: starts[s],
            from: 0,
            to: 1,
        };
    }
    Part {
        end: starts[i + 1],
        from: starts[s - 1 - i],
        to: starts[s - i],
    }
}

// Where split i of size s begins, after split 0.
fn part_start(starts: &[u16], s: usize, i: usize) -> Cursor
    requires { (1 ≤ i) × (i < s) × (s < length starts.now) }
    ensures { result ≡ part_start starts.now s i }
{
    Cursor::at_pair(i, starts[i] as usize, starts[s - 1 - i] as usize)
}

// The cursor's split.
fn split_step(at: Cursor, part: Part, unary: &[u8], binary: &[u8]) -> Option<Candidate>
    ensures { InPart (split_codes unary.now binary.now at.split) part at result }
{
    if at.split == 0 {
        return split::part_step(at, part, unary);
    }
    split::part_step(at, part, binary)
}

// The splits of size s: the unary operators, then i from 1 while i < ceil(s/2).
fn splits_step(
    at: Cursor,
    starts: &[u16],
    s: usize,
    unary: &[u8],
    binary: &[u8],
) -> Option<Candidate>
    requires { (2 ≤ s) × (s < length starts.now) }
    ensures { InParts starts.now s unary.now binary.now at result }
{
    let half = (s + 1) / 2;
    let mut here = at;
    for i in at.split..half {
        let step = split_step(here, part_of(starts, s, i), unary, binary);
        if step.is_some() {
            return step;
        }
        here = part_start(starts, s, i + 1);
    }
    None
}

// The candidate of size s at a cursor and the cursor after it, whatever the cursor's numbers. `starts` has the first place of each size: the places of
// size t go from starts[t] to before starts[t + 1]. A size that it doesn't reach has no candidate.
pub fn next(
    at: Cursor,
    starts: &[u16],
    s: usize,
    propositions: u8,
    constants: u8,
    unary: &[u8],
    binary: &[u8],
) -> Option<Candidate>
    ensures { Steps (layer_of s starts.now propositions constants unary.now binary.now) at result }
{
    if s == 0 {
        return None;
    }
    if starts.len() <= s {
        return None;
    }
    if s == 1 {
        return leaf_step(at, propositions, constants);
    }
    splits_step(at, starts, s, unary, binary)
}

// The cursor at which size s begins.
pub fn first(starts: &[u16], s: usize) -> Cursor
    ensures { result ≡ first starts.now s }
{
    if s < 2 {
        return Cursor::at_leaf(0);
    }
    let left = starts.get(s - 1).copied().unwrap_or(0);
    Cursor::at_pair(0, left as usize, 0)
}
