// The search in slices at the C boundary: the state is read from the words that a C program keeps and written back to them; MORE or the end goes to `out`.
#![tactic(auto)]

ghost use Rattle.std.specs.Prelude.{◌≡◌, [], ◌≤◌, length};
ghost use Rattle.rules.specs.Refusals.{Decided};
ghost use Rattle.checks.specs.Refusals.{search_rows};
ghost use Rattle.walk.specs.Input.{input_of};
ghost use Rattle.table.specs.Slices.{cols};
ghost use Rattle.out.specs.Out.{long_words, written};
ghost use Rattle.out_resume.specs.Resume.{found_words, told_words, ResumeDone};
ghost use Rattle.out_resume.specs.Inner.{ResumeUnanswered};

use formula::kinds::Node;
use state::{End, State};

// The search from the state in the words on, for at most `budget` candidates.
pub fn resume(
    r: usize,
    m: usize,
    bound: usize,
    room: usize,
    constants: u8,
    marks: &[u8],
    lengths: &[u8],
    words: &[u64],
    unary: &[u8],
    binary: &[u8],
    codes: &mut [u8],
    lefts: &mut [u16],
    rights: &mut [u16],
    sizes: &mut [u8],
    matrices: &mut [u64],
    budget: u64,
    state: &mut [u64],
    out: &mut [u64],
) -> u64
    ensures { ResumeDone
        (input_of r m bound room constants marks.now lengths.now words.now unary.now binary.now)
        (cols codes.old lefts.old rights.old sizes.old matrices.old)
        budget
        state.old
        out.old
        result
        (cols codes.new lefts.new rights.new sizes.new matrices.new)
        state.new
        out.new }
{
    if out.len() < out::LONG_WORDS || state.len() < state_words::STATE_WORDS {
        return unanswered(r, m, bound, room, constants, budget);
    }
    let from = state_words::read(state);
    let answer = slices::resume(
        r, m, bound, room, constants, marks, lengths, words, unary, binary, budget, from, codes,
        lefts, rights, sizes, matrices,
    );
    match answer {
        Ok(after) => {
            tell(after, out);
            state_words::put(after, state)
        }
        Err(refusal) => u8::from(refusal) as u64,
    }
}

// Where `out` or the state is too short: the number that the core's tests give when nothing is lent. They have to refuse then, with 3 at the latest, and in
// their own order; the budget's 2 comes before 3.
fn unanswered(r: usize, m: usize, bound: usize, room: usize, constants: u8, budget: u64) -> u64
    ensures { ResumeUnanswered r m bound room constants budget result }
{
    let number = refusal(r, m, bound, room, constants);
    if number == 3 {
        if rules::BUDGET < budget {
            return 2;
        }
    }
    number
}

fn refusal(r: usize, m: usize, bound: usize, room: usize, constants: u8) -> u64
    ensures { Decided (search_rows (input_of r m bound room constants [] [] [] [] []) (cols [] [] [] [] [])) result }
{
    let answer = checks::check(
        r,
        m,
        bound,
        room,
        constants,
        &[],
        &[],
        &[],
        &[],
        &[],
        &[],
        &[],
        &[],
        &[],
        &[],
    );
    match answer {
        Ok(()) => 0,
        Err(refusal) => u8::from(refusal) as u64,
    }
}

fn tell_found(root: Node, out: &mut [u64])
    requires { long_words ≤ length out.old }
    ensures { out.new ≡ written (found_words root) out.old }
{
    out[0] = 1;
    out[1] = root.size as u64;
    out[4] = root.code as u64;
    out[5] = root.left.0 as u64;
    out[6] = root.right.0 as u64;
    out[7] = root.size as u64;
}

// What the state tells: MORE, or the walk's end.
fn tell(after: State, out: &mut [u64])
    requires { long_words ≤ length out.old }
    ensures { out.new ≡ written (told_words after) out.old }
{
    out[2] = after.counts.tried;
    out[3] = after.counts.kept as u64;
    out[8] = after.counts.dropped;
    match after.end {
        End::Found => tell_found(after.root, out),
        End::None => out[0] = 2,
        End::Full => {
            out[0] = 3;
            out[1] = after.size as u64;
        }
        End::More => out[0] = 4,
        End::Other(_) => out[0] = 4,
    }
}
