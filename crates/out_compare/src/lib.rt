// The comparison of matrices at the C boundary: what is refused, and the words of `out` that the answer names.
#![tactic(auto)]

ghost use Rattle.std.specs.Prelude.{◌≡◌, ◌≤◌, length};
ghost use Rattle.rules.specs.Refusals.{Decided, number_of};
ghost use Rattle.out.specs.Out.{out_words, written, said_words};
ghost use Rattle.out_compare.specs.Compare.{CompareDone};
ghost use Rattle.out_compare.specs.Inner.{length_rows, Answers, put_said};

use comparison::Compared;
use rules::kinds::Place;
use rules::refusal::Refusal;

// A matrix, the first r of the words, against the one at a place of the matrices: equal, or the first session that differs.
pub fn compare(r: usize, place: usize, matrices: &[u64], words: &[u64], out: &mut [u64]) -> u64
    ensures { CompareDone r place matrices.now words.now out.old result out.new }
{
    match answer(r, place, matrices, words, out.len()) {
        Ok(compared) => {
            put(compared, place, out);
            0
        }
        Err(refusal) => u8::from(refusal) as u64,
    }
}

// The answer for an `out` of that length. The matrix is the first of those from its place on, since a place past 65535 is no Place.
fn answer(
    r: usize,
    place: usize,
    matrices: &[u64],
    words: &[u64],
    out: usize,
) -> Result<Compared, Refusal>
    ensures { Answers r place matrices.now words.now out result }
{
    check(r, place, matrices.len(), words.len(), out)?;
    let from = place * r;
    comparison::compare(r, Place(0), &matrices[from..], words)
}

// The refusal for slices of those lengths. Divided, the matrices' length holds no product that could wrap.
fn check(r: usize, place: usize, matrices: usize, words: usize, out: usize) -> Result<(), Refusal>
    ensures { Decided (length_rows r place matrices words out) (number_of result) }
{
    if r < 1 {
        return Err(Refusal::Numbers);
    }
    if rules::SESSIONS < r {
        return Err(Refusal::Numbers);
    }
    if out < out::OUT_WORDS {
        return Err(Refusal::Room);
    }
    if words < r {
        return Err(Refusal::Room);
    }
    if matrices / r <= place {
        return Err(Refusal::Room);
    }
    Ok(())
}

// The answer's words; `place` is where the matrix was taken from.
fn put(answer: Compared, place: usize, out: &mut [u64])
    requires { out_words ≤ length out.old }
    ensures { out.new ≡ written (said_words (put_said place answer)) out.old }
{
    match answer {
        Compared::Equal(_) => {
            out[0] = 1;
            out[1] = place as u64;
        }
        Compared::Differs(session) => {
            out[0] = 0;
            out[1] = session.0 as u64;
        }
    }
}
