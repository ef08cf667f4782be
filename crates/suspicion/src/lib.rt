// What is said of a formula that an analyst types: reads a session file, reads the formula with the file's names, checks it against the sessions, and
// writes the answer's lines.
#![tactic(auto)]

mod caret;

ghost use Rattle.session.specs.Recording.{recording};
ghost use Rattle.formula.specs.Kinds.{nodes};
ghost use Rattle.writing.specs.Writing.{Wrote};
ghost use Rattle.suspicion.specs.Suspicion.{TypedLinesOf};
ghost use Rattle.suspicion.specs.Inner.{Checked, Unread, unread_lines, JudgedBy};

use file::ReadError;
use reader::ParseError;
use verdict::Verdict;

// So many bytes hold every answer.
pub const LONGEST: usize = 8248;

// The line of what the check says of the formula whose root is the node at a place of these.
fn checked(
    r: usize,
    m: usize,
    marks: &[u8],
    lengths: &[u8],
    words: &[u64],
    codes: &[u8],
    lefts: &[u16],
    rights: &[u16],
    sizes: &[u8],
    at: usize,
    text: &mut [u8],
) -> usize
    ensures { Checked (recording r m marks.now lengths.now words.now)
        (nodes codes.now lefts.now rights.now sizes.now) at text.old text.new result }
{
    let root = formula::nodes::node_at(codes, lefts, rights, sizes, at);
    let verdict = verdict::check(
        r, m, marks, lengths, words, codes, lefts, rights, sizes, root,
    );
    match verdict {
        Ok(Verdict::Accepted) => line::separates(text),
        Ok(Verdict::Disagrees(session)) => line::disagrees(text, session.0),
        Err(refusal) => line::refused(text, u8::from(refusal)),
    }
}

// The lines for what is typed and is not read.
fn unread(typed: &[u8], error: ParseError, text: &mut [u8]) -> usize
    requires { Unread error }
    ensures { Wrote text.old 0 (unread_lines typed.now error) text.new result }
{
    match error {
        ParseError::Broken(at) => line::refused_at(text, 0, 8, at),
        ParseError::Stops(at) => caret::pointed(text, typed, at, 11),
        ParseError::Unknown(at) => caret::pointed(text, typed, at, 13),
        ParseError::Refused(refusal) => line::refused(text, u8::from(refusal)),
    }
}

// The lines for what is typed, with these names and these sessions.
fn judged(
    typed: &[u8],
    names: &[u8],
    r: usize,
    m: usize,
    marks: &[u8],
    lengths: &[u8],
    words: &[u64],
    text: &mut [u8],
) -> usize
    ensures { JudgedBy typed.now names.now (recording r m marks.now lengths.now words.now)
        text.old text.new result }
{
    let mut codes = [0u8; rules::BOUND];
    let mut lefts = [0u16; rules::BOUND];
    let mut rights = [0u16; rules::BOUND];
    let mut sizes = [0u8; rules::BOUND];
    let parsed = reader::parse(
        names,
        typed,
        &mut codes,
        &mut lefts,
        &mut rights,
        &mut sizes,
    );
    match parsed {
        Ok(n) => checked(
            r,
            m,
            marks,
            lengths,
            words,
            &codes[..n],
            &lefts[..n],
            &rights[..n],
            &sizes[..n],
            n - 1,
            text,
        ),
        Err(error) => unread(typed, error, text),
    }
}

// The lines for what is typed and a session file, at the start of the text, as far as there is room; how many bytes were written.
pub fn of_typed(typed: &[u8], file: &[u8], text: &mut [u8]) -> usize
    ensures { TypedLinesOf typed.now file.now text.old text.new result }
{
    let mut marks = [0u8; rules::SESSIONS];
    let mut lengths = [0u8; rules::SESSIONS];
    let mut words = [0u64; rules::SESSIONS * rules::PROPOSITIONS];
    let mut unary = [0u8; 5];
    let mut binary = [0u8; 6];
    let read = file::read(
        file,
        &mut marks,
        &mut lengths,
        &mut words,
        &mut unary,
        &mut binary,
    );
    match read {
        Ok(parts) => judged(
            typed,
            &file[..parts.names],
            parts.sessions,
            parts.propositions,
            &marks[..parts.sessions],
            &lengths[..parts.sessions],
            &words[..parts.propositions * parts.sessions],
            text,
        ),
        Err(ReadError::Broken(at)) => line::refused_at(text, 0, 8, at),
        Err(ReadError::Room) => line::refused(text, 3),
    }
}
