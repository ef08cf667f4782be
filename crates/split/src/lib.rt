// One split of a size, one candidate at a time, by a cursor that knows no matrix (the inner loops of aux.rs and cache.rs).
#![tactic(auto)]

ghost use Rattle.std.specs.Prelude.{◌≡◌, false, [], ◌^◌, ◌<◌, length};
ghost use Rattle.split.specs.Split.{cursor, told, twice, column_from, cand_in, after_in, InPart};
ghost use Rattle.split.specs.Inner.{stand};

use operators::operator_of;
use rules::kinds::Place;

// Where a size goes on: the split (0 before the pairs), the left and the right place, the operator's position in its list, and whether its first
// order is done. At size 1 the position in the list of leaves stands in `operator`, and the other numbers are 0.
#[derive(Clone, Copy)]
pub struct Cursor {
    pub split: usize,
    pub left: usize,
    pub right: usize,
    pub operator: usize,
    pub second: bool,
}

impl Cursor {
    // Before the first operator over a pair of places.
    pub fn at_pair(split: usize, left: usize, right: usize) -> Cursor
        ensures { result ≡ cursor split left right 0 false }
    {
        Cursor {
            split,
            left,
            right,
            operator: 0,
            second: false,
        }
    }

    // Before a leaf, by its position in their list.
    pub fn at_leaf(position: usize) -> Cursor
        ensures { result ≡ cursor 0 0 0 position false }
    {
        Cursor {
            operator: position,
            ..Cursor::at_pair(0, 0, 0)
        }
    }
}

// The candidate at a cursor and the cursor after it. A step tells one, or none where the size has none left.
#[derive(Clone, Copy)]
pub struct Candidate {
    pub code: u8,
    pub left: Place,
    pub right: Place,
    pub next: Cursor,
}

// The places of a split: the left ones end before `end`, the right ones go from `from` to before `to`.
#[derive(Clone, Copy)]
pub struct Part {
    pub end: u16,
    pub from: u16,
    pub to: u16,
}

// Whether an operator comes in two orders: a binary one that doesn't commute. Split 0 has the unary ones.
fn twice(split: usize, code: u8) -> bool
    ensures { result ≡ twice split code }
{
    if split == 0 {
        return false;
    }
    !operator_of(code).commutes
}

// The candidate at a cursor whose numbers are in range: op(l, q), and after it op(q, l) where there are two orders.
fn over(at: Cursor, codes: &[u8]) -> Option<Candidate>
    requires { (at.operator < length codes.now) × (at.left < 2 ^ 16) × (at.right < 2 ^ 16) }
    ensures { result ≡ told (cand_in codes.now (stand codes.now at)) (after_in codes.now (stand codes.now at)) }
{
    let code = codes[at.operator];
    let l = Place(at.left as u16);
    let q = Place(at.right as u16);
    let halfway = Cursor { second: true, ..at };
    let after = Cursor {
        operator: at.operator + 1,
        second: false,
        ..at
    };
    if !twice(at.split, code) {
        return Some(Candidate {
            code,
            left: l,
            right: q,
            next: after,
        });
    }
    if at.second {
        return Some(Candidate {
            code,
            left: q,
            right: l,
            next: after,
        });
    }
    Some(Candidate {
        code,
        left: l,
        right: q,
        next: halfway,
    })
}

// A split where the cursor's left place has none left: the next left place.
fn next_left(at: Cursor, part: Part, codes: &[u8]) -> Option<Candidate>
    requires { (at.left < part.end) × (0 < length codes.now) × (column_from codes.now part.to at at.left ≡ []) }
    ensures { InPart codes.now part at result }
{
    let l = at.left + 1;
    if (part.end as usize) <= l {
        return None;
    }
    if part.to <= part.from {
        return None;
    }
    over(Cursor::at_pair(at.split, l, part.from as usize), codes)
}

// A split: its left places, under each its right ones, over each pair the operators.
pub fn part_step(at: Cursor, part: Part, codes: &[u8]) -> Option<Candidate>
    ensures { InPart codes.now part at result }
{
    let q = at.right;
    let to = part.to as usize;
    if (part.end as usize) <= at.left {
        return None;
    }
    if codes.is_empty() {
        return None;
    }
    if to <= q {
        return next_left(at, part, codes);
    }
    if at.operator < codes.len() {
        return over(at, codes);
    }
    if to <= q + 1 {
        return next_left(at, part, codes);
    }
    over(Cursor::at_pair(at.split, at.left, q + 1), codes)
}
