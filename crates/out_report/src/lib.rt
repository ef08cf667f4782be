// The report at the C boundary: its text in the lent room and its length in the words of `out`, or a refusal's number.
#![tactic(auto)]

ghost use Rattle.std.specs.Prelude.{◌≡◌, ◌≤◌, length};
ghost use Rattle.formula.specs.Kinds.{node, node_of, nodes};
ghost use Rattle.session.specs.Recording.{recording};
ghost use Rattle.report.specs.Report.{said_report};
ghost use Rattle.out.specs.Out.{out_words, written, said_words};
ghost use Rattle.out_report.specs.Report.{ReportDone};
ghost use Rattle.out_report.specs.Inner.{ReportUnanswered};

use formula::kinds::Node;
use rules::kinds::Place;
use rules::refusal::Refusal;

// Per session and node under the root: the first snapshot where it holds, the first where it doesn't, and at how many it holds.
pub fn report(
    r: usize,
    m: usize,
    marks: &[u8],
    lengths: &[u8],
    words: &[u64],
    codes: &[u8],
    lefts: &[u16],
    rights: &[u16],
    sizes: &[u8],
    code: u8,
    left: u16,
    right: u16,
    size: u8,
    text: &mut [u8],
    out: &mut [u64],
) -> u64
    ensures { ReportDone
        (recording r m marks.now lengths.now words.now)
        (nodes codes.now lefts.now rights.now sizes.now)
        (node code left right size)
        text.old
        out.old
        result
        text.new
        out.new }
{
    let root = Node {
        code,
        left: Place(left),
        right: Place(right),
        size,
    };
    if out.len() < out::OUT_WORDS {
        return unanswered(
            r, m, marks, lengths, words, codes, lefts, rights, sizes, root,
        );
    }
    let answer = report::report(
        r, m, marks, lengths, words, codes, lefts, rights, sizes, root, text,
    );
    put(answer, out);
    number(answer)
}

// With no text lent the report refuses, with 3 at the latest and in its own order.
fn unanswered(
    r: usize,
    m: usize,
    marks: &[u8],
    lengths: &[u8],
    words: &[u64],
    codes: &[u8],
    lefts: &[u16],
    rights: &[u16],
    sizes: &[u8],
    root: Node,
) -> u64
    ensures { ReportUnanswered (recording r m marks.now lengths.now words.now)
        (nodes codes.now lefts.now rights.now sizes.now) (node_of root) result }
{
    let answer = report::report(
        r,
        m,
        marks,
        lengths,
        words,
        codes,
        lefts,
        rights,
        sizes,
        root,
        &mut [],
    );
    number(answer)
}

fn number(answer: Result<usize, Refusal>) -> u64
    ensures { result ≡ (said_report answer).number }
{
    match answer {
        Ok(_) => 0,
        Err(refusal) => u8::from(refusal) as u64,
    }
}

fn put(answer: Result<usize, Refusal>, out: &mut [u64])
    requires { out_words ≤ length out.old }
    ensures { out.new ≡ written (said_words (said_report answer)) out.old }
{
    if let Ok(length) = answer {
        out[0] = length as u64;
    }
}
