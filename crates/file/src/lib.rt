// The session file and its reader (trace.rs: `Trace` and `Operators`): a pass that judges the whole file and writes nothing, and then a pass that
// writes.
#![tactic(auto)]

mod fill;

ghost use Rattle.std.specs.Prelude.{◌≡◌};
ghost use Rattle.file.specs.Reading.{said_read, read_after, lent, read_of};
ghost use Rattle.file.specs.Inner.{tail_of, tail_at, judged_of, Enough};

use fill::{fill_codes, fill_sessions};
use reading::{Broken, byte_within};
use sections::codes::codes_section;
use sections::sessions::sessions_section;

// Document 01's numbers for a file; for the contracts they are in sections' specs/Numbers.antt. The count is the file's own, since a later request raises
// the library's alone.
const PROPOSITIONS: usize = 16;

const BOUND: usize = rules::BOUND;

// "the largest good file is 4,450 bytes"
pub const LARGEST: usize = 4450;

// The numbers of a good file's parts: sessions r, propositions m, the bytes of the names section, codes of each group, constants mark, bound B.
#[derive(Clone, Copy, Debug, PartialEq, Eq)]
pub struct Parts {
    pub sessions: usize,
    pub propositions: usize,
    pub names: usize,
    pub unary: usize,
    pub binary: usize,
    pub constants: u8,
    pub bound: u8,
}

// Why a file's parts are not handed out: it is broken at an offset, or it is good and too little room is lent.
#[derive(Clone, Copy, Debug, PartialEq, Eq)]
pub enum ReadError {
    Broken(usize),
    Room,
}

impl From<Broken> for ReadError {
    ghost use Rattle.std.specs.Prelude.{◌≡◌};
    ghost use Rattle.file.specs.declared.ReadError.{ReadError};

    ghost from_gives = { λ broken e. e ≡ ReadError.Broken broken.0 };

    fn from(broken: Broken) -> ReadError {
        ReadError::Broken(broken.0)
    }
}

// The constants mark and the bound B.
#[derive(Clone, Copy)]
struct Settings {
    constants: u8,
    bound: u8,
}

// The settings, with nothing after them.
fn tail_at(file: &[u8], at: usize) -> Result<Settings, Broken>
    ensures { result ≡ tail_of (tail_at file.now at) }
{
    let count = byte_within(file, at, 2, 2)?;
    let constants = byte_within(file, count.next, 0, 1)?;
    let bound = byte_within(file, constants.next, 1, crate::BOUND)?;
    if bound.next != file.len() {
        return Err(Broken(bound.next));
    }
    Ok(Settings {
        constants: file[count.next],
        bound: file[constants.next],
    })
}

// The numbers of a good file's parts, or the offset that offends.
fn judge(file: &[u8]) -> Result<Parts, Broken>
    ensures { result ≡ judged_of file.now }
{
    let names = names::section(file, crate::PROPOSITIONS)?;
    let sessions = sessions_section(file, names.next, names.value)?;
    let unary = codes_section(file, sessions.next, true)?;
    let binary = codes_section(file, unary.next, false)?;
    let settings = tail_at(file, binary.next)?;
    Ok(Parts {
        sessions: sessions.value,
        propositions: names.value,
        names: names.next,
        unary: unary.value,
        binary: binary.value,
        constants: settings.constants,
        bound: settings.bound,
    })
}

// Whether slices of these lengths have room for r sessions, n words, u codes and v codes.
fn enough(
    marks: usize,
    lengths: usize,
    words: usize,
    unary: usize,
    binary: usize,
    r: usize,
    n: usize,
    u: usize,
    v: usize,
) -> bool
    ensures { Enough marks lengths words unary binary r n u v result }
{
    (r <= marks) & ((r <= lengths) & ((n <= words) & ((u <= unary) & (v <= binary))))
}

// Reads a session file into lent slices: marks and lengths, one a session; words, m a session; the codes of each group. The whole file is judged before
// anything is written: a broken one, or too little room, leaves all slices as they were. The names are not copied: they are the file's first bytes.
pub fn read(
    file: &[u8],
    marks: &mut [u8],
    lengths: &mut [u8],
    words: &mut [u64],
    unary: &mut [u8],
    binary: &mut [u8],
) -> Result<Parts, ReadError>
    ensures { read_after (said_read result) marks.new lengths.new words.new unary.new binary.new
        ≡ read_of file.now (lent marks.old lengths.old words.old unary.old binary.old) }
{
    let parts = judge(file)?;
    let (r, u, v) = (parts.sessions, parts.unary, parts.binary);
    if !enough(
        marks.len(),
        lengths.len(),
        words.len(),
        unary.len(),
        binary.len(),
        r,
        parts.propositions * r,
        u,
        v,
    ) {
        return Err(ReadError::Room);
    }
    let codes = fill_sessions(
        marks,
        lengths,
        words,
        file,
        parts.names,
        parts.propositions,
        r,
    );
    fill_codes(unary, binary, file, codes, u, v);
    Ok(parts)
}
