// The lines of all sessions, one after the other.
ghost use Rattle.std.specs.Prelude.{◌≤◌, ◌<◌, length};
ghost use Rattle.rules.specs.Limits.{most_room};
ghost use Rattle.rules.specs.Refusals.{Decided};
ghost use Rattle.session.specs.Recording.{recording};
ghost use Rattle.formula.specs.Kinds.{node_of, nodes};
ghost use Rattle.verdict.specs.Check.{check_rows};
ghost use Rattle.report.specs.Lines.{NodeSays};
ghost use Rattle.report.specs.Inner.{MarksUnder, AllPass, WrotePlace, WrotePlaces, WroteSession, WroteSessions};

use formula::kinds::Node;
use formula::nodes::{count, node_at};
use rules::kinds::{Place, Session};
use summary::line;
use summary::values::{Summary, summary_of};
use verdict::sequence_of;

// What there is to say of a node on a session.
fn summary_at(
    r: usize,
    m: usize,
    marks: &[u8],
    lengths: &[u8],
    words: &[u64],
    codes: &[u8],
    lefts: &[u16],
    rights: &[u16],
    sizes: &[u8],
    node: Node,
    on: Session,
) -> Summary
    requires { Decided (check_rows (recording r m marks.now lengths.now words.now) (nodes codes.now lefts.now rights.now sizes.now) (node_of node)) 0 × (on.0 < r) }
    ensures { NodeSays (recording r m marks.now lengths.now words.now)
        (nodes codes.now lefts.now rights.now sizes.now) on.0 (node_of node) result }
{
    // What is reported has passed the check, and so neither can be missing.
    let seq = sequence_of(
        r, m, marks, lengths, words, codes, lefts, rights, sizes, node, on,
    )
    .unwrap()
    .unwrap();
    summary_of(seq)
}

// The line of a listed node, if it is under the root.
fn put_listed(
    r: usize,
    m: usize,
    marks: &[u8],
    lengths: &[u8],
    words: &[u64],
    codes: &[u8],
    lefts: &[u16],
    rights: &[u16],
    sizes: &[u8],
    under: &[u8],
    on: Session,
    p: u16,
    text: &mut [u8],
    at: usize,
) -> usize
    requires { AllPass (recording r m marks.now lengths.now words.now) (nodes codes.now lefts.now rights.now sizes.now) × (on.0 < r)
        × (p < length (nodes codes.now lefts.now rights.now sizes.now)) × (p < length under.now) }
    ensures { WrotePlace (recording r m marks.now lengths.now words.now)
        (nodes codes.now lefts.now rights.now sizes.now) under.now on.0 p
        text.old at text.new result }
{
    if under[p as usize] != 1 {
        return at;
    }
    let node = node_at(codes, lefts, rights, sizes, p as usize);
    let s = summary_at(
        r, m, marks, lengths, words, codes, lefts, rights, sizes, node, on,
    );
    line::put_place(text, at, on, Place(p), s)
}

// The lines of all listed nodes under the root, places rising.
fn put_places(
    r: usize,
    m: usize,
    marks: &[u8],
    lengths: &[u8],
    words: &[u64],
    codes: &[u8],
    lefts: &[u16],
    rights: &[u16],
    sizes: &[u8],
    under: &[u8],
    on: Session,
    text: &mut [u8],
    at: usize,
) -> usize
    requires { AllPass (recording r m marks.now lengths.now words.now) (nodes codes.now lefts.now rights.now sizes.now) × (on.0 < r)
        × (length (nodes codes.now lefts.now rights.now sizes.now) ≤ length under.now) ×
        (length (nodes codes.now lefts.now rights.now sizes.now) ≤ most_room) }
    ensures { WrotePlaces (recording r m marks.now lengths.now words.now)
        (nodes codes.now lefts.now rights.now sizes.now) under.now on.0
        (length (nodes codes.now lefts.now rights.now sizes.now)) text.old at
        text.new result }
{
    let n = count(codes, lefts, rights, sizes) as u16;
    let mut b = at;
    for p in 0..n {
        b = put_listed(
            r, m, marks, lengths, words, codes, lefts, rights, sizes, under, on, p, text, b,
        );
    }
    b
}

// The lines of one session: the nodes under the root, and the root.
fn put_session(
    r: usize,
    m: usize,
    marks: &[u8],
    lengths: &[u8],
    words: &[u64],
    codes: &[u8],
    lefts: &[u16],
    rights: &[u16],
    sizes: &[u8],
    root: Node,
    under: &[u8],
    on: Session,
    text: &mut [u8],
    at: usize,
) -> usize
    requires { Decided
        (check_rows (recording r m marks.now lengths.now words.now) (nodes codes.now lefts.now rights.now sizes.now) (node_of root)) 0 ×
        (on.0 < r) × MarksUnder (nodes codes.now lefts.now rights.now sizes.now) (node_of root) under.now }
    ensures { WroteSession (recording r m marks.now lengths.now words.now)
        (nodes codes.now lefts.now rights.now sizes.now) (node_of root) on.0 text.old at
        text.new result }
{
    let a = put_places(
        r, m, marks, lengths, words, codes, lefts, rights, sizes, under, on, text, at,
    );
    let s = summary_at(
        r, m, marks, lengths, words, codes, lefts, rights, sizes, root, on,
    );
    line::put_root(text, a, on, s)
}

// The lines of all sessions, from the start of the text.
pub(crate) fn put_sessions(
    r: usize,
    m: usize,
    marks: &[u8],
    lengths: &[u8],
    words: &[u64],
    codes: &[u8],
    lefts: &[u16],
    rights: &[u16],
    sizes: &[u8],
    root: Node,
    under: &[u8],
    text: &mut [u8],
) -> usize
    requires { Decided
        (check_rows (recording r m marks.now lengths.now words.now) (nodes codes.now lefts.now rights.now sizes.now) (node_of root)) 0 ×
        MarksUnder (nodes codes.now lefts.now rights.now sizes.now) (node_of root) under.now }
    ensures { WroteSessions (recording r m marks.now lengths.now words.now)
        (nodes codes.now lefts.now rights.now sizes.now) (node_of root) r text.old 0
        text.new result }
{
    let n = r as u8;
    let mut a: usize = 0;
    for j in 0..n {
        a = put_session(
            r,
            m,
            marks,
            lengths,
            words,
            codes,
            lefts,
            rights,
            sizes,
            root,
            under,
            Session(j),
            text,
            a,
        );
    }
    a
}
