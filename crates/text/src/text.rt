// The text of a formula over a node list that has passed the rule.
ghost use Rattle.std.specs.Prelude.{◌<◌, [], length, get_or};
ghost use Rattle.formula.specs.Kinds.{node_of, nodes};
ghost use Rattle.names.specs.Names.{GoodNames, names_in};
ghost use Rattle.writing.specs.Writing.{Wrote};
ghost use Rattle.text.specs.Inner.{Printable, TextWritten, PrintableAt, WrittenAt, LeafPrintable, LeafWritten, TokenWritten, BetweenWritten};

use formula::kinds::{FALSE, Node, PROPOSITION};
use formula::nodes::node_at;
use names::lookup::letters;
use operators::Group;
use rules::kinds::{Place, Proposition};
use writing::put;

// The token of the operator with a code, and the space after it.
fn put_token(room: &mut [u8], at: usize, code: u8) -> usize
    ensures { TokenWritten code room.old at room.new result }
{
    let operator = operators::operator_of(code);
    let token = operator.token;
    let bytes = operator.bytes;
    let a = put(room, at, &token[..bytes]);
    put(room, a, b" ")
}

// The same between two children, where a space stands before it too.
fn put_between(room: &mut [u8], at: usize, code: u8) -> usize
    ensures { BetweenWritten code room.old at room.new result }
{
    let a = put(room, at, b" ");
    put_token(room, a, code)
}

fn put_name(names: &[u8], p: usize, room: &mut [u8], at: usize) -> usize
    requires { GoodNames names.now × (p < length (names_in names.now)) }
    ensures { Wrote room.old at (get_or (names_in names.now) p []) room.new result }
{
    let l = letters(names, p);
    let from = l.from;
    let to = l.to;
    put(room, at, &names[from..to])
}

fn put_leaf(names: &[u8], node: Node, room: &mut [u8], at: usize) -> usize
    requires { LeafPrintable names.now (node_of node) }
    ensures { LeafWritten names.now (node_of node) room.old at room.new result }
{
    if node.code == PROPOSITION {
        let p = Proposition::from_left(node.left).0 as usize;
        return put_name(names, p, room, at);
    }
    if node.code == FALSE {
        return put(room, at, b"false");
    }
    put(room, at, b"true")
}

// The text of a child in its brackets, by its place.
#[cycle(put_child_write)]
fn put_child(
    names: &[u8],
    codes: &[u8],
    lefts: &[u16],
    rights: &[u16],
    sizes: &[u8],
    child: Place,
    room: &mut [u8],
    at: usize,
) -> usize
    requires { PrintableAt names.now (nodes codes.now lefts.now rights.now sizes.now) child.0 }
    ensures { WrittenAt names.now (nodes codes.now lefts.now rights.now sizes.now)
        child.0 room.old at room.new result }
{
    let node = node_at(codes, lefts, rights, sizes, child.0 as usize);
    let a = put(room, at, b"(");
    let b = write(names, codes, lefts, rights, sizes, node, room, a);
    put(room, b, b")")
}

// The text of a node goes into the room from a place on.
#[cycle(put_child_write)]
pub(crate) fn write(
    names: &[u8],
    codes: &[u8],
    lefts: &[u16],
    rights: &[u16],
    sizes: &[u8],
    node: Node,
    room: &mut [u8],
    at: usize,
) -> usize
    requires { Printable names.now (nodes codes.now lefts.now rights.now sizes.now) (node_of node) }
    ensures { TextWritten names.now (nodes codes.now lefts.now rights.now sizes.now)
        (node_of node) room.old at room.new result }
{
    let group = operators::operator_of(node.code).group;
    match group {
        Group::Unary => {
            let a = put_token(room, at, node.code);
            put_child(names, codes, lefts, rights, sizes, node.left, room, a)
        }
        Group::Binary => {
            let a = put_child(names, codes, lefts, rights, sizes, node.left, room, at);
            let b = put_between(room, a, node.code);
            put_child(names, codes, lefts, rights, sizes, node.right, room, b)
        }
        Group::Neither => put_leaf(names, node, room, at),
    }
}
