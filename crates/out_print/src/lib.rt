// Printing at the C boundary: the text in the lent room and its length in the words of `out`, or a refusal's number.
#![tactic(auto)]

ghost use Rattle.std.specs.Prelude.{◌≡◌, ◌≤◌, length};
ghost use Rattle.names.specs.Names.{whole_names};
ghost use Rattle.formula.specs.Kinds.{node, node_of, nodes};
ghost use Rattle.text.specs.Print.{said_printed};
ghost use Rattle.out.specs.Out.{out_words, written, returned_of, said_words};
ghost use Rattle.out.specs.Unanswered.{OffsetFits};
ghost use Rattle.out_print.specs.Print.{PrintDone};
ghost use Rattle.out_print.specs.Inner.{PrintUnanswered};

use formula::kinds::Node;
use rules::kinds::Place;
use text::PrintError;

// The text of the root's formula, at the start of the lent room.
pub fn print(
    names: &[u8],
    codes: &[u8],
    lefts: &[u16],
    rights: &[u16],
    sizes: &[u8],
    code: u8,
    left: u16,
    right: u16,
    size: u8,
    text: &mut [u8],
    out: &mut [u64],
) -> u64
    ensures { PrintDone
        names.now
        (nodes codes.now lefts.now rights.now sizes.now)
        (node code left right size)
        text.old
        out.old
        result
        text.new
        out.new }
{
    let root = Node {
        code,
        left: Place(left),
        right: Place(right),
        size,
    };
    if out.len() < out::OUT_WORDS {
        return unanswered(names, codes, lefts, rights, sizes, root);
    }
    let answer = text::print(names, codes, lefts, rights, sizes, root, text);
    put(answer, out);
    number(answer)
}

// Where `out` is too short for an answer: the number that the core gives when nothing is lent to it. It has to refuse then, with 3 at the latest, and in
// its own order, so that none of its tests is repeated here.
fn unanswered(
    names: &[u8],
    codes: &[u8],
    lefts: &[u16],
    rights: &[u16],
    sizes: &[u8],
    root: Node,
) -> u64
    ensures { PrintUnanswered (whole_names names.now)
        (nodes codes.now lefts.now rights.now sizes.now) (node_of root) result }
{
    let answer = text::print(names, codes, lefts, rights, sizes, root, &mut []);
    number(answer)
}

fn number(answer: Result<usize, PrintError>) -> u64
    requires { OffsetFits (said_printed answer) }
    ensures { result ≡ returned_of (said_printed answer) }
{
    match answer {
        Ok(_) => 0,
        Err(PrintError::Broken(offset)) => out::refused_at(8, offset as u32),
        Err(PrintError::Refused(refusal)) => u8::from(refusal) as u64,
    }
}

fn put(answer: Result<usize, PrintError>, out: &mut [u64])
    requires { out_words ≤ length out.old }
    ensures { out.new ≡ written (said_words (said_printed answer)) out.old }
{
    if let Ok(length) = answer {
        out[0] = length as u64;
    }
}
