// What is said of a session file to someone who wants to follow the answer: the report on the formula found, and else what the bench says.
#![tactic(auto)]

ghost use Rattle.std.specs.Prelude.{◌≤◌, length};
ghost use Rattle.rules.specs.Refusals.{Decided};
ghost use Rattle.session.specs.Recording.{recording};
ghost use Rattle.formula.specs.Kinds.{node_of, nodes};
ghost use Rattle.verdict.specs.Check.{check_rows};
ghost use Rattle.walk.specs.Input.{input_of};
ghost use Rattle.report.specs.Promises.{most_report};
ghost use Rattle.lines.specs.Bench.{bench_room};
ghost use Rattle.explanation.specs.Explanation.{ExplanationOf};
ghost use Rattle.explanation.specs.Inner.{Stands, OfGood, BenchSays, ToldOf, ReportOf};

use formula::kinds::Node;
use search::SearchAnswer;

// What the bench says, by the bench's own function.
fn bench(file: &[u8], text: &mut [u8]) -> usize
    ensures { Stands (BenchSays file.now) text.old result text.new }
{
    let mut lines = [0u8; lines::LONGEST];
    let length = lines::of_file(file, lines::BENCH_ROOM, &mut lines);
    writing::put(text, 0, &lines[..length])
}

// The report on a formula that has passed the check.
fn reported(
    r: usize,
    m: usize,
    marks: &[u8],
    lengths: &[u8],
    words: &[u64],
    codes: &[u8],
    lefts: &[u16],
    rights: &[u16],
    sizes: &[u8],
    root: Node,
    text: &mut [u8],
) -> usize
    requires { Decided (check_rows (recording r m marks.now lengths.now words.now) (nodes codes.now lefts.now rights.now sizes.now) (node_of root)) 0
        × (most_report ≤ length text.old) }
    ensures { Stands (ReportOf (recording r m marks.now lengths.now words.now)
        (nodes codes.now lefts.now rights.now sizes.now) (node_of root)) text.old result text.new }
{
    let said = report::report(
        r, m, marks, lengths, words, codes, lefts, rights, sizes, root, text,
    );
    match said {
        Ok(length) => length,
        // Can't come up: the formula has passed the check, and there is room.
        Err(_) => 0,
    }
}

// The output for what a search over a good file's parts finds.
fn searched(
    file: &[u8],
    r: usize,
    m: usize,
    bound: usize,
    constants: u8,
    marks: &[u8],
    lengths: &[u8],
    words: &[u64],
    unary: &[u8],
    binary: &[u8],
    text: &mut [u8],
) -> usize
    requires { OfGood (input_of r m bound bench_room constants marks.now lengths.now words.now unary.now binary.now) × (most_report ≤ length text.old) }
    ensures { Stands (ToldOf file.now
        (input_of r m bound bench_room constants marks.now lengths.now words.now unary.now binary.now))
        text.old result text.new }
{
    let mut codes = [0u8; rules::ROOM];
    let mut lefts = [0u16; rules::ROOM];
    let mut rights = [0u16; rules::ROOM];
    let mut sizes = [0u8; rules::ROOM];
    let mut matrices = [0u64; rules::ROOM * rules::SESSIONS];
    let answer = search::search(
        r,
        m,
        bound,
        lines::BENCH_ROOM,
        constants,
        marks,
        lengths,
        words,
        unary,
        binary,
        &mut codes,
        &mut lefts,
        &mut rights,
        &mut sizes,
        &mut matrices,
    );
    match answer {
        Ok(SearchAnswer::Found { root, counts }) => reported(
            r,
            m,
            marks,
            lengths,
            words,
            &codes[..counts.kept],
            &lefts[..counts.kept],
            &rights[..counts.kept],
            &sizes[..counts.kept],
            root,
            text,
        ),
        // Three arms that do the same: with one, by `_`, the proof didn't close, since it says nothing of which variant it is.
        Ok(SearchAnswer::None(_)) => bench(file, text),
        Ok(SearchAnswer::Full { .. }) => bench(file, text),
        Err(_) => bench(file, text),
    }
}

// The output for a session file, at the start of the text; how many bytes were written.
pub fn of_file(file: &[u8], text: &mut [u8; report::LONGEST]) -> usize
    ensures { ExplanationOf file.now text.old result text.new }
{
    let mut marks = [0u8; rules::SESSIONS];
    let mut lengths = [0u8; rules::SESSIONS];
    let mut words = [0u64; rules::SESSIONS * rules::PROPOSITIONS];
    let mut unary = [0u8; 5];
    let mut binary = [0u8; 6];
    let read = file::read(
        file,
        &mut marks,
        &mut lengths,
        &mut words,
        &mut unary,
        &mut binary,
    );
    match read {
        Ok(parts) => searched(
            file,
            parts.sessions,
            parts.propositions,
            parts.bound as usize,
            parts.constants,
            &marks[..parts.sessions],
            &lengths[..parts.sessions],
            &words[..parts.propositions * parts.sessions],
            &unary[..parts.unary],
            &binary[..parts.binary],
            text,
        ),
        Err(_) => bench(file, text),
    }
}
