// Whether each session's mark is what the session says of the formula.
ghost use Rattle.std.specs.Prelude.{◌≡◌, ◌↔◌, true, ◌≤◌, ◌<◌};
ghost use Rattle.formula.specs.Kinds.{node_of, nodes};
ghost use Rattle.session.specs.Recording.{recording};
ghost use Rattle.verdict.specs.Inner.{Checkable, FirstApart, AgreesSeq};

use crate::evaluate::eval;
use formula::kinds::Node;
use sequence::CharSeq;

// A session of that mark, and a formula's sequence there.
fn agrees(mark: u8, seq: CharSeq) -> bool
    ensures { AgreesSeq mark seq result }
{
    (mark == 1) == seq.accepts()
}

// The first session that disagrees with the root's formula, or r: a number and no Option, since the definition that the edit `always_names_session_0`
// and two more change tells the two cases apart by whether it is below r.
pub(crate) fn first_disagreeing(
    r: usize,
    m: usize,
    marks: &[u8],
    lengths: &[u8],
    words: &[u64],
    codes: &[u8],
    lefts: &[u16],
    rights: &[u16],
    sizes: &[u8],
    root: Node,
) -> usize
    requires { Checkable (recording r m marks.now lengths.now words.now) (nodes codes.now lefts.now rights.now sizes.now) (node_of root) }
    ensures { FirstApart (recording r m marks.now lengths.now words.now)
        (nodes codes.now lefts.now rights.now sizes.now) (node_of root) result }
{
    for j in 0..r {
        let length = lengths[j] as usize;
        let seq = eval(length, words, j * m, codes, lefts, rights, sizes, root);
        if !agrees(marks[j], seq) {
            return j;
        }
    }
    r
}
