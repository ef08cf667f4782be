// Faces over lent lists of nodes: check, print, search and parse with a slice of `Node` structs where the core has four slices of numbers. Thin functions:
// they copy nodes (`lists`) and hand them on by value to the crates that work on numbers (nodes_in, nodes_out).
#![tactic(auto)]

mod lists;

ghost use Rattle.formula.specs.Kinds.{node_of};
ghost use Rattle.verdict.specs.Check.{said_verdict, CheckAnswer};
ghost use Rattle.session.specs.Recording.{recording};
ghost use Rattle.text.specs.Print.{said_printed, Prints};
ghost use Rattle.reader.specs.Parsing.{said_parsed, Parses};
ghost use Rattle.search.specs.Search.{Searched};
ghost use Rattle.walk.specs.Input.{input_of};
ghost use Rattle.nodes_in.specs.Lists.{plain};
ghost use Rattle.nodes_out.specs.Columns.{node_cols, fields};

use formula::kinds::Node;
use reader::ParseError;
use rules::refusal::Refusal;
use search::SearchAnswer;
use text::PrintError;
use verdict::Verdict;

// The analyst's check of a node list, whoever wrote it.
pub fn check(
    r: usize,
    m: usize,
    marks: &[u8],
    lengths: &[u8],
    words: &[u64],
    nodes: &[Node],
    root: Node,
) -> Result<Verdict, Refusal>
    ensures { CheckAnswer (recording r m marks.now lengths.now words.now) (plain nodes.now) (node_of root) (said_verdict result) }
{
    let list = lists::copied(nodes);
    nodes_in::check(r, m, marks, lengths, words, list, nodes.len(), root)
}

// The text of the root's formula, at the start of the lent room.
pub fn print(names: &[u8], nodes: &[Node], root: Node, room: &mut [u8]) -> Result<usize, PrintError>
    ensures { Prints names.now (plain nodes.now) (node_of root) room.old (said_printed result) room.new }
{
    let list = lists::copied(nodes);
    nodes_in::print(names, list, nodes.len(), root, room)
}

// The search, with the kept formulas in a lent list of nodes.
pub fn search(
    r: usize,
    m: usize,
    bound: usize,
    room: usize,
    constants: u8,
    marks: &[u8],
    lengths: &[u8],
    words: &[u64],
    unary: &[u8],
    binary: &[u8],
    nodes: &mut [Node],
    matrices: &mut [u64],
) -> Result<SearchAnswer, Refusal>
    ensures { Searched
        (input_of r m bound room constants marks.now lengths.now words.now unary.now binary.now)
        (node_cols nodes.old matrices.old)
        result
        (node_cols nodes.new matrices.new) }
{
    let done = nodes_out::search(
        r,
        m,
        bound,
        room,
        constants,
        marks,
        lengths,
        words,
        unary,
        binary,
        nodes.len(),
        matrices,
    );
    lists::put(done.listed, nodes);
    done.answer
}

// A formula that is typed with names of a lent names section, its nodes in a lent list of nodes: left child, right child, parent, the root last.
pub fn parse(names: &[u8], text: &[u8], nodes: &mut [Node]) -> Result<usize, ParseError>
    ensures { Parses names.now text.now (fields nodes.old) (fields nodes.new) (said_parsed result) }
{
    let read = nodes_out::parse(names, text, nodes.len());
    lists::put(read.listed, nodes);
    read.answer
}
