// The check and printing of nodes in an array, by value: four arrays of numbers are made of it, which the core takes as slices.
#![tactic(auto)]

ghost use Rattle.std.specs.Prelude.{◌≡◌, ◌≤◌, min, length};
ghost use Rattle.formula.specs.Kinds.{node_of};
ghost use Rattle.verdict.specs.Check.{said_verdict};
ghost use Rattle.session.specs.Recording.{recording};
ghost use Rattle.text.specs.Print.{said_printed};
ghost use Rattle.nodes_in.specs.Arrays.{seen, FieldsFilled, Checks, Printing};

use formula::kinds::Node;
use rules::refusal::Refusal;
use text::PrintError;
use verdict::Verdict;

// As many nodes as the check and printing look at: one more than a list may have.
pub const SEEN: usize = rules::ROOM + 1;

// As many of a list's nodes as are looked at.
pub fn count_of(length: usize) -> usize
    ensures { result ≡ min length seen }
{
    length.min(SEEN)
}

// The first `count` nodes, field by field.
fn unpack(
    list: [Node; SEEN],
    count: usize,
    codes: &mut [u8],
    lefts: &mut [u16],
    rights: &mut [u16],
    sizes: &mut [u8],
)
    requires { (count ≤ length list) × (length codes.old ≡ length list) × (length lefts.old ≡ length list) × (length rights.old ≡ length list) × (length sizes.old ≡ length list) }
    ensures { FieldsFilled list count codes.new lefts.new rights.new sizes.new }
{
    for i in 0..count {
        let node = list[i];
        codes[i] = node.code;
        lefts[i] = node.left.0;
        rights[i] = node.right.0;
        sizes[i] = node.size;
    }
}

// The check of a list of which `list` has the nodes that are looked at.
pub fn check(
    r: usize,
    m: usize,
    marks: &[u8],
    lengths: &[u8],
    words: &[u64],
    list: [Node; SEEN],
    length: usize,
    root: Node,
) -> Result<Verdict, Refusal>
    ensures { Checks (recording r m marks.now lengths.now words.now) list length (node_of root) (said_verdict result) }
{
    let count = count_of(length);
    let mut codes: [u8; SEEN] = [0; SEEN];
    let mut lefts: [u16; SEEN] = [0; SEEN];
    let mut rights: [u16; SEEN] = [0; SEEN];
    let mut sizes: [u8; SEEN] = [0; SEEN];
    unpack(list, count, &mut codes, &mut lefts, &mut rights, &mut sizes);
    verdict::check(
        r,
        m,
        marks,
        lengths,
        words,
        &codes[..count],
        &lefts[..count],
        &rights[..count],
        &sizes[..count],
        root,
    )
}

// Printing of such a list.
pub fn print(
    names: &[u8],
    list: [Node; SEEN],
    length: usize,
    root: Node,
    room: &mut [u8],
) -> Result<usize, PrintError>
    ensures { Printing names.now list length (node_of root) room.old (said_printed result) room.new }
{
    let count = count_of(length);
    let mut codes: [u8; SEEN] = [0; SEEN];
    let mut lefts: [u16; SEEN] = [0; SEEN];
    let mut rights: [u16; SEEN] = [0; SEEN];
    let mut sizes: [u8; SEEN] = [0; SEEN];
    unpack(list, count, &mut codes, &mut lefts, &mut rights, &mut sizes);
    text::print(
        names,
        &codes[..count],
        &lefts[..count],
        &rights[..count],
        &sizes[..count],
        root,
        room,
    )
}
