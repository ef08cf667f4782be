// The analyst's check at the C boundary: whether the formula separates, or the first session that disagrees, in the words of `out`.
#![tactic(auto)]

ghost use Rattle.std.specs.Prelude.{◌≡◌, ◌≤◌, length};
ghost use Rattle.formula.specs.Kinds.{node, nodes};
ghost use Rattle.verdict.specs.Check.{said_verdict};
ghost use Rattle.session.specs.Recording.{recording};
ghost use Rattle.out.specs.Out.{out_words, written, returned_of, said_words};
ghost use Rattle.out_check.specs.Check.{CheckDone};
ghost use Rattle.out_check.specs.Inner.{CheckUnanswered};

use formula::kinds::Node;
use rules::kinds::Place;
use rules::refusal::Refusal;
use verdict::Verdict;

// Whether the root's formula separates the marked sessions, and if not, the first session that disagrees.
pub fn check(
    r: usize,
    m: usize,
    marks: &[u8],
    lengths: &[u8],
    words: &[u64],
    codes: &[u8],
    lefts: &[u16],
    rights: &[u16],
    sizes: &[u8],
    code: u8,
    left: u16,
    right: u16,
    size: u8,
    out: &mut [u64],
) -> u64
    ensures { CheckDone
        (recording r m marks.now lengths.now words.now)
        (nodes codes.now lefts.now rights.now sizes.now)
        (node code left right size)
        out.old
        result
        out.new }
{
    if out.len() < out::OUT_WORDS {
        return unanswered(r, m);
    }
    let root = Node {
        code,
        left: Place(left),
        right: Place(right),
        size,
    };
    let answer = verdict::check(
        r, m, marks, lengths, words, codes, lefts, rights, sizes, root,
    );
    put(answer, out);
    number(answer)
}

// Where `out` is too short for an answer: the number that the core gives when nothing is lent to it. It has to refuse then, with 3 at the latest, and in
// its own order, so that none of its tests is repeated here.
fn unanswered(r: usize, m: usize) -> u64
    ensures { CheckUnanswered r m result }
{
    match session::data::test(r, m, &[], &[], &[]) {
        Ok(()) => 0,
        Err(refusal) => u8::from(refusal) as u64,
    }
}

fn number(answer: Result<Verdict, Refusal>) -> u64
    ensures { result ≡ returned_of (said_verdict answer) }
{
    match answer {
        Ok(_) => 0,
        Err(refusal) => u8::from(refusal) as u64,
    }
}

fn put(answer: Result<Verdict, Refusal>, out: &mut [u64])
    requires { out_words ≤ length out.old }
    ensures { out.new ≡ written (said_words (said_verdict answer)) out.old }
{
    match answer {
        Ok(Verdict::Accepted) => {
            out[0] = 1;
        }
        Ok(Verdict::Disagrees(session)) => {
            out[0] = 0;
            out[1] = session.0 as u64;
        }
        Err(_) => {}
    }
}
