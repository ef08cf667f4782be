// Reading a typed formula at the C boundary: its nodes in the lent slices and their number in the words of `out`, or a refusal's number with its offset.
#![tactic(auto)]

ghost use Rattle.std.specs.Prelude.{◌≡◌, ◌^◌, ◌≤◌, ◌<◌, length};
ghost use Rattle.reader.specs.Parsing.{columns, said_parsed};
ghost use Rattle.out.specs.Out.{out_words, written, returned_of, said_words};
ghost use Rattle.out_parse.specs.Parse.{ParseDone};
ghost use Rattle.out_parse.specs.Inner.{ParseUnanswered};

use reader::ParseError;

// The nodes of a formula that is typed, in the lent slices, the root last.
pub fn parse(
    names: &[u8],
    text: &[u8],
    codes: &mut [u8],
    lefts: &mut [u16],
    rights: &mut [u16],
    sizes: &mut [u8],
    out: &mut [u64],
) -> u64
    ensures { ParseDone
        names.now
        text.now
        (columns codes.old lefts.old rights.old sizes.old)
        out.old
        result
        (columns codes.new lefts.new rights.new sizes.new)
        out.new }
{
    if out.len() < out::OUT_WORDS {
        return unanswered(names, text);
    }
    let answer = reader::parse(names, text, codes, lefts, rights, sizes);
    put(answer, out);
    number(answer)
}

// Where `out` is too short for an answer: the number that the core gives when nothing is lent to it. It has to refuse then, with 3 at the latest, and in
// its own order, so that none of its tests is repeated here.
fn unanswered(names: &[u8], text: &[u8]) -> u64
    ensures { ParseUnanswered names.now text.now result }
{
    let answer = reader::parse(names, text, &mut [], &mut [], &mut [], &mut []);
    number(answer)
}

fn number(answer: Result<usize, ParseError>) -> u64
    requires { returned_of (said_parsed answer) < 2 ^ 32 }
    ensures { result ≡ returned_of (said_parsed answer) }
{
    match answer {
        Ok(_) => 0,
        Err(ParseError::Broken(offset)) => out::refused_at(8, offset as u32),
        Err(ParseError::Stops(offset)) => out::refused_at(11, offset as u32),
        Err(ParseError::Unknown(offset)) => out::refused_at(13, offset as u32),
        Err(ParseError::Refused(refusal)) => u8::from(refusal) as u64,
    }
}

fn put(answer: Result<usize, ParseError>, out: &mut [u64])
    requires { out_words ≤ length out.old }
    ensures { out.new ≡ written (said_words (said_parsed answer)) out.old }
{
    if let Ok(count) = answer {
        out[0] = count as u64;
    }
}
