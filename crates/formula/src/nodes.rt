// The nodes of four lent slices, and the rule of a node list (number 9), tested at each listed node and at the root.
ghost use Rattle.std.specs.Prelude.{◌≡◌, [], ◌∷◌};
ghost use Rattle.formula.specs.Nodes.{node_at};
ghost use Rattle.rules.specs.Refusals.{Decided, number_of};
ghost use Rattle.formula.specs.Kinds.{node, node_of, count_of, nodes};
ghost use Rattle.formula.specs.Rule.{IsUnary, IsBinary, broken_list};
ghost use Rattle.formula.specs.Inner.{NodeJudged, AllJudged, LeafJudged, UnaryJudged, BinaryJudged};

use crate::kinds::{Node, PROPOSITION, TRUE};
use operators::Group;
use rules::kinds::Place;
use rules::refusal::Refusal;

// How many nodes four slices have: as many as the shortest.
pub fn count(codes: &[u8], lefts: &[u16], rights: &[u16], sizes: &[u8]) -> usize
    ensures { result ≡ count_of codes.now lefts.now rights.now sizes.now }
{
    codes
        .len()
        .min(lefts.len().min(rights.len().min(sizes.len())))
}

fn node_of(code: u8, left: u16, right: u16, size: u8) -> Node
    ensures { node_of result ≡ node code left right size }
{
    Node {
        code,
        left: Place(left),
        right: Place(right),
        size,
    }
}

// The node at a place; where there is none, one whose numbers are all 0.
pub fn node_at(codes: &[u8], lefts: &[u16], rights: &[u16], sizes: &[u8], at: usize) -> Node
    ensures { node_of result ≡ node_at (nodes codes.now lefts.now rights.now sizes.now) at }
{
    if count(codes, lefts, rights, sizes) <= at {
        return node_of(0, 0, 0, 0);
    }
    node_of(codes[at], lefts[at], rights[at], sizes[at])
}

// The size of the node at a place; 0 where there is none.
fn size_at(codes: &[u8], lefts: &[u16], rights: &[u16], sizes: &[u8], at: Place) -> u8
    ensures { (node_at (nodes codes.now lefts.now rights.now sizes.now) at.0).size ≡ result }
{
    node_at(codes, lefts, rights, sizes, at.0 as usize).size
}

// A node whose code is no operator's.
fn leaf_good(m: usize, node: Node) -> bool
    requires { (IsUnary node.code → ⊥) × (IsBinary node.code → ⊥) }
    ensures { LeafJudged m (node_of node) result }
{
    let code = node.code;
    let known = (PROPOSITION <= code) & (code <= TRUE);
    let unused = node.right.0 == 0;
    let single = node.size == 1;
    let proposition = code == PROPOSITION;
    let listed = (node.left.0 as usize) < m;
    let nothing = node.left.0 == 0;
    known & unused & single & ((proposition & listed) | (!proposition & nothing))
}

// A unary operator's node, whose child has size l.
fn unary_good(below: usize, node: Node, l: u8) -> bool
    requires { IsUnary node.code }
    ensures { UnaryJudged below (node_of node) l result }
{
    let size = node.size as usize;
    let placed = (node.left.0 as usize) < below;
    let unused = node.right.0 == 0;
    let sum = size == 1 + l as usize;
    let small = size <= rules::BOUND;
    placed & unused & sum & small
}

// A binary operator's node, whose children have the sizes l and r.
fn binary_good(below: usize, node: Node, l: u8, r: u8) -> bool
    requires { IsBinary node.code }
    ensures { BinaryJudged below (node_of node) l r result }
{
    let size = node.size as usize;
    let left = (node.left.0 as usize) < below;
    let right = (node.right.0 as usize) < below;
    let sum = size == 1 + l as usize + r as usize;
    let small = size <= rules::BOUND;
    left & right & sum & small
}

// One node, whose children have to stand below a place.
fn node_good(
    m: usize,
    codes: &[u8],
    lefts: &[u16],
    rights: &[u16],
    sizes: &[u8],
    below: usize,
    node: Node,
) -> bool
    ensures { NodeJudged m (nodes codes.now lefts.now rights.now sizes.now) below (node_of node) result }
{
    let group = operators::operator_of(node.code).group;
    match group {
        Group::Unary => unary_good(below, node, size_at(codes, lefts, rights, sizes, node.left)),
        Group::Binary => binary_good(
            below,
            node,
            size_at(codes, lefts, rights, sizes, node.left),
            size_at(codes, lefts, rights, sizes, node.right),
        ),
        Group::Neither => leaf_good(m, node),
    }
}

// Each of the first n nodes, reachable or not.
fn nodes_good(m: usize, codes: &[u8], lefts: &[u16], rights: &[u16], sizes: &[u8], n: usize) -> bool
    ensures { AllJudged m (nodes codes.now lefts.now rights.now sizes.now) n result }
{
    for i in 0..n {
        let node = node_at(codes, lefts, rights, sizes, i);
        if !node_good(m, codes, lefts, rights, sizes, i, node) {
            return false;
        }
    }
    true
}

// A list or a root that breaks the rule is refused.
pub fn check(
    m: usize,
    codes: &[u8],
    lefts: &[u16],
    rights: &[u16],
    sizes: &[u8],
    root: Node,
) -> Result<(), Refusal>
    ensures { Decided (broken_list m (nodes codes.now lefts.now rights.now sizes.now) (node_of root) ∷ []) (number_of result) }
{
    let n = count(codes, lefts, rights, sizes);
    if rules::ROOM < n {
        return Err(Refusal::Nodes);
    }
    let listed = nodes_good(m, codes, lefts, rights, sizes, n);
    let rooted = node_good(m, codes, lefts, rights, sizes, n, root);
    if listed & rooted {
        Ok(())
    } else {
        Err(Refusal::Nodes)
    }
}
