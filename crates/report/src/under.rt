// The places under the root, as marks: 1 at each of them.
ghost use Rattle.std.specs.Prelude.{◌≡◌, ◌<◌, length, set};
ghost use Rattle.formula.specs.Nodes.{node_at};
ghost use Rattle.formula.specs.Kinds.{node_of, nodes};
ghost use Rattle.report.specs.Inner.{MarksChildren, MarksBelow, WholeList, MarksUnder};

use formula::kinds::Node;
use formula::nodes::{count, node_at};
use operators::Group;
use rules::kinds::Place;

fn mark(marks: &mut [u8], place: Place)
    ensures { marks.new ≡ set marks.old place.0 1 }
{
    let p = place.0 as usize;
    if marks.len() <= p {
        return;
    }
    marks[p] = 1;
}

// The children of a node.
fn mark_children(marks: &mut [u8], node: Node)
    ensures { MarksChildren marks.old (node_of node) marks.new }
{
    let group = operators::operator_of(node.code).group;
    match group {
        Group::Unary => mark(marks, node.left),
        Group::Binary => {
            mark(marks, node.left);
            mark(marks, node.right)
        }
        Group::Neither => (),
    }
}

// The children of the node at place q, if that has a mark.
fn mark_below(codes: &[u8], lefts: &[u16], rights: &[u16], sizes: &[u8], q: usize, marks: &mut [u8])
    requires { q < length marks.old }
    ensures { MarksBelow marks.old q (node_at (nodes codes.now lefts.now rights.now sizes.now) q) marks.new }
{
    if marks[q] != 1 {
        return;
    }
    let node = node_at(codes, lefts, rights, sizes, q);
    mark_children(marks, node);
}

// From the last place down: a node stands above its children, so each place has its mark before it is looked at.
pub(crate) fn places_under(
    codes: &[u8],
    lefts: &[u16],
    rights: &[u16],
    sizes: &[u8],
    root: Node,
) -> [u8; rules::ROOM]
    requires { WholeList (nodes codes.now lefts.now rights.now sizes.now) (node_of root) }
    ensures { MarksUnder (nodes codes.now lefts.now rights.now sizes.now) (node_of root) result }
{
    let mut marks = [0u8; rules::ROOM];
    mark_children(&mut marks, root);
    let n = count(codes, lefts, rights, sizes);
    for q in (0..n).rev() {
        mark_below(codes, lefts, rights, sizes, q, &mut marks);
    }
    marks
}
