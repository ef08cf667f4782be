// A formula on recorded sessions: its sequence on one of them, and the analyst's check.
#![tactic(auto)]

mod agree;
mod evaluate;

ghost use Rattle.std.specs.Prelude.{◌≤◌};
ghost use Rattle.rules.specs.Limits.{most_sessions};
ghost use Rattle.formula.specs.Kinds.{node_of, nodes};
ghost use Rattle.verdict.specs.Check.{said_verdict, CheckAnswer};
ghost use Rattle.verdict.specs.Sequences.{SequenceAnswer};
ghost use Rattle.verdict.specs.Inner.{VerdictOn};
ghost use Rattle.session.specs.Recording.{recording};

use formula::kinds::Node;
use formula::nodes;
use rules::kinds::Session;
use rules::refusal::Refusal;
use sequence::CharSeq;

// What the analyst's check says of a formula.
#[derive(Clone, Copy)]
pub enum Verdict {
    Accepted,
    Disagrees(Session),
}

// The verdict, where `first` is the first of r sessions that disagrees, or r.
fn verdict_on(r: usize, first: usize) -> Verdict
    requires { first ≤ most_sessions }
    ensures { VerdictOn r first result }
{
    let number = first as u8;
    if first < r {
        return Verdict::Disagrees(Session(number));
    }
    Verdict::Accepted
}

// Whether the root's formula separates the marked sessions, and if not, the first session that disagrees.
pub fn check(
    r: usize,
    m: usize,
    marks: &[u8],
    lengths: &[u8],
    words: &[u64],
    codes: &[u8],
    lefts: &[u16],
    rights: &[u16],
    sizes: &[u8],
    root: Node,
) -> Result<Verdict, Refusal>
    ensures { CheckAnswer (recording r m marks.now lengths.now words.now)
        (nodes codes.now lefts.now rights.now sizes.now) (node_of root) (said_verdict result) }
{
    session::data::test(r, m, marks, lengths, words)?;
    nodes::check(m, codes, lefts, rights, sizes, root)?;
    let first = agree::first_disagreeing(
        r, m, marks, lengths, words, codes, lefts, rights, sizes, root,
    );
    Ok(verdict_on(r, first))
}

// The sequence of the root's formula on the session with that number, if there is such a session; refused as the check refuses.
pub fn sequence_of(
    r: usize,
    m: usize,
    marks: &[u8],
    lengths: &[u8],
    words: &[u64],
    codes: &[u8],
    lefts: &[u16],
    rights: &[u16],
    sizes: &[u8],
    root: Node,
    on: Session,
) -> Result<Option<CharSeq>, Refusal>
    ensures { SequenceAnswer (recording r m marks.now lengths.now words.now)
        (nodes codes.now lefts.now rights.now sizes.now) (node_of root) on.0 result }
{
    session::data::test(r, m, marks, lengths, words)?;
    nodes::check(m, codes, lefts, rights, sizes, root)?;
    let j = on.0 as usize;
    if r <= j {
        return Ok(None);
    }
    let length = lengths[j] as usize;
    let seq = evaluate::eval(length, words, j * m, codes, lefts, rights, sizes, root);
    Ok(Some(seq))
}
