// Nodes from a lent slice into an array, and back: the functions that touch a slice of structs, and no more.
ghost use Rattle.std.specs.Prelude.{◌≡◌, length};
ghost use Rattle.nodes_in.specs.Arrays.{seen, Copied};
ghost use Rattle.nodes_out.specs.Arrays.{put_over, ListFits};

use formula::kinds::Node;
use nodes_in::{SEEN, count_of};
use nodes_out::Listed;
use rules::ROOM;
use rules::kinds::Place;

fn blank() -> [Node; SEEN]
    ensures { length result ≡ seen }
{
    let node = Node {
        code: 0,
        left: Place(0),
        right: Place(0),
        size: 0,
    };
    [node; SEEN]
}

// The nodes that are looked at, by value.
pub(crate) fn copied(nodes: &[Node]) -> [Node; SEEN]
    ensures { Copied nodes.now result }
{
    let mut list = blank();
    let count = count_of(nodes.len());
    for i in 0..count {
        list[i] = nodes[i];
    }
    list
}

fn nodes_of(listed: Listed) -> [Node; ROOM]
    ensures { result ≡ listed.nodes }
{
    let nodes = listed.nodes;
    nodes
}

fn number_of(listed: Listed) -> usize
    ensures { result ≡ listed.count }
{
    listed.count
}

// Nodes at the start of the lent list; the rest of it stays.
pub(crate) fn put(listed: Listed, nodes: &mut [Node])
    requires { ListFits listed nodes.old }
    ensures { nodes.new ≡ put_over listed nodes.old }
{
    let list = nodes_of(listed);
    let count = number_of(listed);
    for i in 0..count {
        nodes[i] = list[i];
    }
}
