// Reading a session file at the C boundary: its parts in the lent slices and their numbers in the words of `out`, or a refusal's number with its offset.
#![tactic(auto)]

ghost use Rattle.std.specs.Prelude.{◌≡◌, ◌≤◌, length};
ghost use Rattle.file.specs.Offence.{whole_file};
ghost use Rattle.file.specs.Reading.{lent};
ghost use Rattle.file.specs.Reading as reading;
ghost use Rattle.out.specs.Out.{out_words, written, returned_of, said_words};
ghost use Rattle.out.specs.Unanswered.{OffsetFits};
ghost use Rattle.out_read.specs.Read.{done, read_done};
ghost use Rattle.out_read.specs.Inner.{read_unanswered};

use file::{Parts, ReadError};

// A session file's parts, in the lent slices.
pub fn read(
    file: &[u8],
    marks: &mut [u8],
    lengths: &mut [u8],
    words: &mut [u64],
    unary: &mut [u8],
    binary: &mut [u8],
    out: &mut [u64],
) -> u64
    ensures { done result
        (lent marks.new lengths.new words.new unary.new binary.new)
        out.new
        ≡ read_done file.now
        (lent marks.old lengths.old words.old unary.old binary.old)
        out.old }
{
    if out.len() < out::OUT_WORDS {
        return unanswered(file);
    }
    let answer = file::read(file, marks, lengths, words, unary, binary);
    put(answer, out);
    number(answer)
}

// Where `out` is too short for an answer: the number that the core gives when nothing is lent to it. It has to refuse then, with 3 at the latest, and in
// its own order, so that none of its tests is repeated here.
fn unanswered(file: &[u8]) -> u64
    ensures { result ≡ read_unanswered (whole_file file.now) }
{
    let answer = file::read(file, &mut [], &mut [], &mut [], &mut [], &mut []);
    number(answer)
}

fn number(answer: Result<Parts, ReadError>) -> u64
    requires { OffsetFits (reading.said_read answer) }
    ensures { result ≡ returned_of (reading.said_read answer) }
{
    match answer {
        Ok(_) => 0,
        Err(ReadError::Broken(offset)) => out::refused_at(8, offset as u32),
        Err(ReadError::Room) => 3,
    }
}

fn put(answer: Result<Parts, ReadError>, out: &mut [u64])
    requires { out_words ≤ length out.old }
    ensures { out.new ≡ written (said_words (reading.said_read answer)) out.old }
{
    let Ok(parts) = answer else {
        return;
    };
    out[0] = parts.sessions as u64;
    out[1] = parts.propositions as u64;
    out[2] = parts.names as u64;
    out[3] = parts.unary as u64;
    out[4] = parts.binary as u64;
    out[5] = parts.constants as u64;
    out[6] = parts.bound as u64;
}
