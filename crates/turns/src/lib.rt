// The search as one loop (enum_aux in aux.rs): the next candidate, over the ends of sizes, what becomes of it, the counts.
#![tactic(auto)]

ghost use Rattle.std.specs.Prelude.{not, length};
ghost use Rattle.walk.specs.Input.{input_of};
ghost use Rattle.table.specs.Slices.{cols};
ghost use Rattle.rules.specs.Answers.{Tested};
ghost use Rattle.turns.specs.Turns.{LoopFits, Gone};
ghost use Rattle.turns.specs.Inner.{Masked};

use onward::Turn;
use state::State;

// At most so many operators of a group are offered, none twice.
const GROUP_MOST: usize = 6;

// The masks of the sessions, once for a call.
fn masks_for(r: usize, lengths: &[u8]) -> [u64; rules::SESSIONS]
    ensures { Masked r lengths.now result }
{
    let mut masks = [0u64; rules::SESSIONS];
    masks::masks_of(r, lengths, &mut masks);
    masks
}

// Whether the loop may not run: a number above document 01's limits, more operators of a group than there are, or a state that 14 refuses.
fn unfit(
    m: usize,
    bound: usize,
    room: usize,
    constants: u8,
    unary: &[u8],
    binary: &[u8],
    from: State,
) -> bool
    ensures { Tested (LoopFits m bound room constants (length unary.now) (length binary.now) from) (not result) }
{
    if rules::BOUND < bound {
        return true;
    }
    if rules::ROOM < room {
        return true;
    }
    if rules::PROPOSITIONS < m {
        return true;
    }
    if GROUP_MOST < unary.len() {
        return true;
    }
    if GROUP_MOST < binary.len() {
        return true;
    }
    state::wrong(m, bound, room, constants, unary.len(), binary.len(), from)
}

// The walk from a state on, for at most so many candidates. It tests its own numbers, and where they are out of range it answers the state that it was handed
// and writes nothing.
pub fn go_on(
    r: usize,
    m: usize,
    bound: usize,
    room: usize,
    constants: u8,
    marks: &[u8],
    lengths: &[u8],
    words: &[u64],
    unary: &[u8],
    binary: &[u8],
    budget: u64,
    from: State,
    codes: &mut [u8],
    lefts: &mut [u16],
    rights: &mut [u16],
    sizes: &mut [u8],
    matrices: &mut [u64],
) -> State
    ensures { Gone
        (input_of r m bound room constants marks.now lengths.now words.now unary.now binary.now)
        budget from
        (cols codes.old lefts.old rights.old sizes.old matrices.old)
        (cols codes.new lefts.new rights.new sizes.new matrices.new) result }
{
    if unfit(m, bound, room, constants, unary, binary, from) {
        return from;
    }
    let masks = masks_for(r, lengths);
    let mut rows = [0u64; rules::SESSIONS];
    let mut starts = onward::starts_at(sizes, from.counts.kept);
    let mut state = from;
    let mut left = budget;
    loop {
        let seen = onward::seek(
            m,
            bound,
            constants,
            sizes,
            unary,
            binary,
            state,
            &mut starts,
        );
        let (before, node, next) = match onward::turn_of(seen, left) {
            Turn::Rests(state) => return state,
            Turn::Tries { state, node, next } => (state, node, next),
        };
        left -= 1;
        let fate = candidate::judge(
            r,
            m,
            room,
            marks,
            words,
            &masks,
            node,
            before.counts.kept,
            &mut rows,
            codes,
            lefts,
            rights,
            sizes,
            matrices,
        );
        state = onward::ends::after(before.size, before.counts, next, fate, node);
    }
}
