// What the bench says of a session file: reads it, searches with a room, and writes the answer's lines.
#![tactic(auto)]

ghost use Rattle.std.specs.Prelude.{◌≡◌, ◌≤◌, length};
ghost use Rattle.formula.specs.Kinds.{node_of, nodes};
ghost use Rattle.walk.specs.Input.{input_of};
ghost use Rattle.lines.specs.Bench.{longest_lines, LinesOf};
ghost use Rattle.lines.specs.Inner.{Showable, ShownBy, GivenBy, WrittenFor};

use file::ReadError;
use formula::kinds::Node;
use search::SearchAnswer;
use text::PrintError;
use writing::put;

// The bench's room, and that of what explains its answer: "searches with C = 200".
pub const BENCH_ROOM: usize = 200;

// Room for whatever the lines say.
pub const LONGEST: usize = 512;

// The lines of a formula found: its counts, and its text.
fn found(
    names: &[u8],
    codes: &[u8],
    lefts: &[u16],
    rights: &[u16],
    sizes: &[u8],
    root: Node,
    tried: u64,
    dropped: u64,
    text: &mut [u8],
) -> usize
    requires { Showable names.now (nodes codes.now lefts.now rights.now sizes.now) (node_of root)
        × (length codes.now ≡ length (nodes codes.now lefts.now rights.now sizes.now)) }
    ensures { ShownBy names.now (nodes codes.now lefts.now rights.now sizes.now) (node_of root) tried dropped
        text.old result text.new }
{
    let mut shown = [0u8; text::LONGEST];
    let printed = text::print(names, codes, lefts, rights, sizes, root, &mut shown);
    match printed {
        Ok(length) => {
            let a = line::found(text, root.size, tried, codes.len(), dropped);
            let b = put(text, a, &shown[..length]);
            put(text, b, b"\n")
        }
        Err(PrintError::Broken(at)) => line::broken(text, at),
        Err(PrintError::Refused(refusal)) => line::refused(text, refusal.into()),
    }
}

// The lines of what a search over these sessions finds.
fn searched(
    names: &[u8],
    r: usize,
    m: usize,
    bound: usize,
    room: usize,
    constants: u8,
    marks: &[u8],
    lengths: &[u8],
    words: &[u64],
    unary: &[u8],
    binary: &[u8],
    text: &mut [u8],
) -> usize
    requires { GivenBy names.now (input_of r m bound room constants marks.now lengths.now words.now unary.now binary.now) × (longest_lines ≤ length text.old) }
    ensures { WrittenFor names.now
        (input_of r m bound room constants marks.now lengths.now words.now unary.now binary.now)
        text.old result text.new }
{
    let mut codes = [0u8; rules::ROOM];
    let mut lefts = [0u16; rules::ROOM];
    let mut rights = [0u16; rules::ROOM];
    let mut sizes = [0u8; rules::ROOM];
    let mut matrices = [0u64; rules::ROOM * rules::SESSIONS];
    let answer = search::search(
        r,
        m,
        bound,
        room,
        constants,
        marks,
        lengths,
        words,
        unary,
        binary,
        &mut codes,
        &mut lefts,
        &mut rights,
        &mut sizes,
        &mut matrices,
    );
    match answer {
        Ok(SearchAnswer::Found { root, counts }) => found(
            names,
            &codes[..counts.kept],
            &lefts[..counts.kept],
            &rights[..counts.kept],
            &sizes[..counts.kept],
            root,
            counts.tried,
            counts.dropped,
            text,
        ),
        Ok(SearchAnswer::None(counts)) => {
            line::none(text, counts.tried, counts.kept, counts.dropped)
        }
        Ok(SearchAnswer::Full { size, counts }) => {
            line::full(text, size, counts.tried, counts.kept, counts.dropped)
        }
        Err(refusal) => line::refused(text, refusal.into()),
    }
}

// The bench's lines for this file and this room, at the start of the text; how many bytes they have.
pub fn of_file(file: &[u8], room: usize, text: &mut [u8; LONGEST]) -> usize
    ensures { LinesOf file.now room text.old result text.new }
{
    let mut marks = [0u8; rules::SESSIONS];
    let mut lengths = [0u8; rules::SESSIONS];
    let mut words = [0u64; rules::SESSIONS * rules::PROPOSITIONS];
    let mut unary = [0u8; 5];
    let mut binary = [0u8; 6];
    let read = file::read(
        file,
        &mut marks,
        &mut lengths,
        &mut words,
        &mut unary,
        &mut binary,
    );
    match read {
        Ok(parts) => searched(
            &file[..parts.names],
            parts.sessions,
            parts.propositions,
            parts.bound as usize,
            room,
            parts.constants,
            &marks[..parts.sessions],
            &lengths[..parts.sessions],
            &words[..parts.propositions * parts.sessions],
            &unary[..parts.unary],
            &binary[..parts.binary],
            text,
        ),
        Err(ReadError::Broken(at)) => line::broken(text, at),
        Err(ReadError::Room) => line::refused(text, 3),
    }
}
