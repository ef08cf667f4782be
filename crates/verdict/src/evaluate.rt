// One session's sequence of a formula, over a node list that has passed the rule.
ghost use Rattle.formula.specs.Kinds.{node_of, nodes};
ghost use Rattle.verdict.specs.Inner.{Ready, Evaluated, ReadyAt, EvaluatedAt, LeafReady, LeafEvaluated};

use formula::kinds::{FALSE, Node, PROPOSITION};
use formula::nodes::node_at;
use operators::Group;
use rules::kinds::{Place, Proposition};
use sequence::CharSeq;

// A leaf's sequence: a proposition's as it was recorded, no place for false, and every place for true.
fn leaf(length: usize, words: &[u64], from: usize, node: Node) -> CharSeq
    requires { LeafReady length words.now from (node_of node) }
    ensures { LeafEvaluated length words.now from (node_of node) result }
{
    if node.code == PROPOSITION {
        let p = Proposition::from_left(node.left).0 as usize;
        let word = words[from + p];
        return CharSeq {
            length,
            values: word,
        };
    }
    if node.code == FALSE {
        return CharSeq { length, values: 0 };
    }
    CharSeq {
        length,
        values: words::places(CharSeq::mask(length)),
    }
}

// The sequence of a child, by its place.
#[cycle(eval_eval_child)]
fn eval_child(
    length: usize,
    words: &[u64],
    from: usize,
    codes: &[u8],
    lefts: &[u16],
    rights: &[u16],
    sizes: &[u8],
    at: Place,
) -> CharSeq
    requires { ReadyAt length words.now from (nodes codes.now lefts.now rights.now sizes.now) at.0 }
    ensures { EvaluatedAt length words.now from (nodes codes.now lefts.now rights.now sizes.now) at.0 result }
{
    let node = node_at(codes, lefts, rights, sizes, at.0 as usize);
    eval(length, words, from, codes, lefts, rights, sizes, node)
}

// The sequence of a node, by those of its children, whose places are smaller.
#[cycle(eval_eval_child)]
pub(crate) fn eval(
    length: usize,
    words: &[u64],
    from: usize,
    codes: &[u8],
    lefts: &[u16],
    rights: &[u16],
    sizes: &[u8],
    node: Node,
) -> CharSeq
    requires { Ready length words.now from (nodes codes.now lefts.now rights.now sizes.now) (node_of node) }
    ensures { Evaluated length words.now from (nodes codes.now lefts.now rights.now sizes.now) (node_of node) result }
{
    let group = operators::operator_of(node.code).group;
    match group {
        Group::Unary => {
            let x = eval_child(length, words, from, codes, lefts, rights, sizes, node.left);
            x.unary(node.code)
        }
        Group::Binary => {
            let x = eval_child(length, words, from, codes, lefts, rights, sizes, node.left);
            let y = eval_child(length, words, from, codes, lefts, rights, sizes, node.right);
            x.binary(node.code, y)
        }
        Group::Neither => leaf(length, words, from, node),
    }
}
