// A report that a person can follow: per session and node under the root, the first snapshot where it holds, the first where it doesn't, and at how
// many it holds. A layer above the library: it calls public operations alone.
#![tactic(auto)]

mod sessions;
mod under;

ghost use Rattle.session.specs.Recording.{recording};
ghost use Rattle.formula.specs.Kinds.{node_of, nodes};
ghost use Rattle.verdict.specs.Check.{check_rows};
ghost use Rattle.rules.specs.Refusals.{Decided};
ghost use Rattle.report.specs.Report.{said_report, Reports};

use formula::kinds::Node;
use rules::refusal::Refusal;
use sessions::put_sessions;
use under::places_under;

// The most bytes that a report can have.
pub const LONGEST: usize = 15562;

// The report of what has passed the check.
fn write(
    r: usize,
    m: usize,
    marks: &[u8],
    lengths: &[u8],
    words: &[u64],
    codes: &[u8],
    lefts: &[u16],
    rights: &[u16],
    sizes: &[u8],
    root: Node,
    text: &mut [u8],
) -> Result<usize, Refusal>
    requires { Decided (check_rows (recording r m marks.now lengths.now words.now) (nodes codes.now lefts.now rights.now sizes.now) (node_of root)) 0 }
    ensures { Reports (recording r m marks.now lengths.now words.now)
        (nodes codes.now lefts.now rights.now sizes.now) (node_of root) text.old (said_report result)
        text.new }
{
    let under = places_under(codes, lefts, rights, sizes, root);
    let mut whole = [0u8; LONGEST];
    let n = put_sessions(
        r, m, marks, lengths, words, codes, lefts, rights, sizes, root, &under, &mut whole,
    );
    if text.len() < n {
        return Err(Refusal::Room);
    }
    Ok(writing::put(text, 0, &whole[..n]))
}

// The report on the root's formula, at the start of the lent text. A formula that doesn't separate is reported all the same.
pub fn report(
    r: usize,
    m: usize,
    marks: &[u8],
    lengths: &[u8],
    words: &[u64],
    codes: &[u8],
    lefts: &[u16],
    rights: &[u16],
    sizes: &[u8],
    root: Node,
    text: &mut [u8],
) -> Result<usize, Refusal>
    ensures { Reports (recording r m marks.now lengths.now words.now)
        (nodes codes.now lefts.now rights.now sizes.now) (node_of root) text.old (said_report result)
        text.new }
{
    verdict::check(
        r, m, marks, lengths, words, codes, lefts, rights, sizes, root,
    )?;
    write(
        r, m, marks, lengths, words, codes, lefts, rights, sizes, root, text,
    )
}
