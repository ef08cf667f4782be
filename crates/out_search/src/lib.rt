// The search at the C boundary: FOUND, NONE or FULL in the words of `out`, or a refusal's number.
#![tactic(auto)]

ghost use Rattle.std.specs.Prelude.{◌≡◌, ◌≤◌, length};
ghost use Rattle.walk.specs.Input.{input_of};
ghost use Rattle.table.specs.Slices.{cols};
ghost use Rattle.search.specs.declared.SearchAnswer.TheVariants.{Found, None, Full};
ghost use Rattle.out.specs.Out.{long_words, written};
ghost use Rattle.out_search.specs.Search.{search_words, SearchDone};
ghost use Rattle.out_search.specs.Inner.{SearchUnanswered};

use counting::Counts;
use formula::kinds::Node;
use search::SearchAnswer;

// FOUND, NONE or FULL, with the kept formulas in the lent slices.
pub fn search(
    r: usize,
    m: usize,
    bound: usize,
    room: usize,
    constants: u8,
    marks: &[u8],
    lengths: &[u8],
    words: &[u64],
    unary: &[u8],
    binary: &[u8],
    codes: &mut [u8],
    lefts: &mut [u16],
    rights: &mut [u16],
    sizes: &mut [u8],
    matrices: &mut [u64],
    out: &mut [u64],
) -> u64
    ensures { SearchDone
        (input_of r m bound room constants marks.now lengths.now words.now unary.now binary.now)
        (cols codes.old lefts.old rights.old sizes.old matrices.old)
        out.old
        result
        (cols codes.new lefts.new rights.new sizes.new matrices.new)
        out.new }
{
    if out.len() < out::LONG_WORDS {
        return unanswered(r, m, bound, room, constants);
    }
    let answer = search::search(
        r, m, bound, room, constants, marks, lengths, words, unary, binary, codes, lefts, rights,
        sizes, matrices,
    );
    match answer {
        Ok(answer) => {
            put(answer, out);
            0
        }
        Err(refusal) => u8::from(refusal) as u64,
    }
}

// Where `out` is too short for an answer: the number that the core's tests give when nothing is lent. They have to refuse then, with 3 at the latest, and in
// their own order, so that none of them is repeated here.
fn unanswered(r: usize, m: usize, bound: usize, room: usize, constants: u8) -> u64
    ensures { SearchUnanswered r m bound room constants result }
{
    let answer = checks::check(
        r,
        m,
        bound,
        room,
        constants,
        &[],
        &[],
        &[],
        &[],
        &[],
        &[],
        &[],
        &[],
        &[],
        &[],
    );
    match answer {
        Ok(()) => 0,
        Err(refusal) => u8::from(refusal) as u64,
    }
}

fn put_found(root: Node, counts: Counts, out: &mut [u64])
    requires { long_words ≤ length out.old }
    ensures { out.new ≡ written (search_words (Found root counts)) out.old }
{
    out[0] = 1;
    out[1] = root.size as u64;
    out[2] = counts.tried;
    out[3] = counts.kept as u64;
    out[4] = root.code as u64;
    out[5] = root.left.0 as u64;
    out[6] = root.right.0 as u64;
    out[7] = root.size as u64;
    out[8] = counts.dropped;
}

fn put_none(counts: Counts, out: &mut [u64])
    requires { long_words ≤ length out.old }
    ensures { out.new ≡ written (search_words (None counts)) out.old }
{
    out[0] = 2;
    out[2] = counts.tried;
    out[3] = counts.kept as u64;
    out[8] = counts.dropped;
}

fn put_full(size: u8, counts: Counts, out: &mut [u64])
    requires { long_words ≤ length out.old }
    ensures { out.new ≡ written (search_words (Full size counts)) out.old }
{
    out[0] = 3;
    out[1] = size as u64;
    out[2] = counts.tried;
    out[3] = counts.kept as u64;
    out[8] = counts.dropped;
}

// The answer's words.
fn put(answer: SearchAnswer, out: &mut [u64])
    requires { long_words ≤ length out.old }
    ensures { out.new ≡ written (search_words answer) out.old }
{
    match answer {
        SearchAnswer::Found { root, counts } => put_found(root, counts, out),
        SearchAnswer::None(counts) => put_none(counts, out),
        SearchAnswer::Full { size, counts } => put_full(size, counts, out),
    }
}
