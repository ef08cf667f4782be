// The search and the reader of formulas with the nodes that they leave in an array, by value: the core writes into arrays of numbers, of which the nodes are made.
#![tactic(auto)]

ghost use Rattle.std.specs.Prelude.{◌≡◌, ◌≤◌, min, length};
ghost use Rattle.walk.specs.Input.{input_of};
ghost use Rattle.nodes_in.specs.Arrays.{FieldsFilled};
ghost use Rattle.nodes_out.specs.Arrays.{room, kept_of, Works, ReadIn};

use formula::kinds::Node;
use reader::ParseError;
use rules::ROOM;
use rules::kinds::Place;
use rules::refusal::Refusal;
use search::SearchAnswer;

// Nodes at the start of an array.
#[derive(Clone, Copy)]
pub struct Listed {
    pub nodes: [Node; ROOM],
    pub count: usize,
}

// What a search leaves: its answer, and the kept nodes.
#[derive(Clone, Copy)]
pub struct Done {
    pub answer: Result<SearchAnswer, Refusal>,
    pub listed: Listed,
}

// What reading leaves: its answer, and the formula's nodes.
#[derive(Clone, Copy)]
pub struct Read {
    pub answer: Result<usize, ParseError>,
    pub listed: Listed,
}

fn bytes() -> [u8; ROOM]
    ensures { length result ≡ room }
{
    [0; ROOM]
}

fn places() -> [u16; ROOM]
    ensures { length result ≡ room }
{
    [0; ROOM]
}

fn room_of(length: usize) -> usize
    ensures { result ≡ min length room }
{
    length.min(ROOM)
}

// The number kept, 0 at a refusal.
fn kept_in(answer: Result<SearchAnswer, Refusal>) -> usize
    ensures { result ≡ kept_of answer }
{
    match answer {
        Ok(SearchAnswer::Found { root: _, counts }) => counts.kept,
        Ok(SearchAnswer::None(counts)) => counts.kept,
        Ok(SearchAnswer::Full { size: _, counts }) => counts.kept,
        Err(_) => 0,
    }
}

// The first `count` nodes, of their fields.
fn pack(
    codes: [u8; ROOM],
    lefts: [u16; ROOM],
    rights: [u16; ROOM],
    sizes: [u8; ROOM],
    count: usize,
) -> [Node; ROOM]
    requires { count ≤ room }
    ensures { FieldsFilled result count codes lefts rights sizes }
{
    let blank = Node {
        code: 0,
        left: Place(0),
        right: Place(0),
        size: 0,
    };
    let mut list = [blank; ROOM];
    for i in 0..count {
        list[i] = Node {
            code: codes[i],
            left: Place(lefts[i]),
            right: Place(rights[i]),
            size: sizes[i],
        };
    }
    list
}

// A search that keeps its nodes in arrays of its own. What a list held before doesn't matter: only places below the number kept are written.
pub fn search(
    r: usize,
    m: usize,
    bound: usize,
    room: usize,
    constants: u8,
    marks: &[u8],
    lengths: &[u8],
    words: &[u64],
    unary: &[u8],
    binary: &[u8],
    length: usize,
    matrices: &mut [u64],
) -> Done
    ensures { Works
        (input_of r m bound room constants marks.now lengths.now words.now unary.now binary.now)
        length matrices.old result matrices.new }
{
    let least = room_of(length);
    let mut codes = bytes();
    let mut lefts = places();
    let mut rights = places();
    let mut sizes = bytes();
    let answer = search::search(
        r,
        m,
        bound,
        room,
        constants,
        marks,
        lengths,
        words,
        unary,
        binary,
        &mut codes[..least],
        &mut lefts[..least],
        &mut rights[..least],
        &mut sizes[..least],
        matrices,
    );
    let count = kept_in(answer);
    let nodes = pack(codes, lefts, rights, sizes, count);
    Done {
        answer,
        listed: Listed { nodes, count },
    }
}

// A text read into arrays, with as much room as a lent list of this length has: no formula needs more than the arrays have.
pub fn parse(names: &[u8], text: &[u8], length: usize) -> Read
    ensures { ReadIn names.now text.now length result }
{
    let room = room_of(length);
    let mut codes = bytes();
    let mut lefts = places();
    let mut rights = places();
    let mut sizes = bytes();
    let answer = reader::parse(
        names,
        text,
        &mut codes[..room],
        &mut lefts[..room],
        &mut rights[..room],
        &mut sizes[..room],
    );
    let count = answer.unwrap_or(0);
    let nodes = pack(codes, lefts, rights, sizes, count);
    Read {
        answer,
        listed: Listed { nodes, count },
    }
}
