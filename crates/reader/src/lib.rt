// Formulas read from text: the text judged and its tree's nodes written.
#![tactic(auto)]

mod fill;
mod write;

ghost use Rattle.reader.specs.Parsing.{said_parsed, columns, Parses};

use descent::judge::{JudgeError, judge};
use rules::refusal::Refusal;
use write::write;

// Why a text is not read: the offset at which the names section is broken; the offset of the byte that can't continue a formula; the offset of the first unknown name; or
// another refusal.
#[derive(Clone, Copy, Debug, PartialEq, Eq)]
pub enum ParseError {
    Broken(usize),
    Stops(usize),
    Unknown(usize),
    Refused(Refusal),
}

impl From<JudgeError> for ParseError {
    ghost use Rattle.std.specs.Prelude.{◌≡◌};
    ghost use Rattle.reader.specs.Parsing.{refused_by};

    ghost from_gives = { λ judged e. e ≡ refused_by judged };

    fn from(judged: JudgeError) -> ParseError {
        match judged {
            JudgeError::Broken(o) => ParseError::Broken(o),
            JudgeError::Stops(k) => ParseError::Stops(k),
            JudgeError::Unknown(k) => ParseError::Unknown(k),
            JudgeError::Long | JudgeError::Large => ParseError::Refused(Refusal::Large),
            // the scratch has room for the longest text that is taken, so that this never comes up
            JudgeError::Room => ParseError::Refused(Refusal::Room),
        }
    }
}

// The nodes of a formula that is typed with names of a lent names section: left child, right child, parent, the root last. The answer is how many they are.
pub fn parse(
    names: &[u8],
    text: &[u8],
    codes: &mut [u8],
    lefts: &mut [u16],
    rights: &mut [u16],
    sizes: &mut [u8],
) -> Result<usize, ParseError>
    ensures { Parses names.now text.now
        (columns codes.old lefts.old rights.old sizes.old)
        (columns codes.new lefts.new rights.new sizes.new) (said_parsed result) }
{
    let mut scratch = [0u64; rules::TYPED];
    let n = judge(names, text, &mut scratch)?;
    let room = codes
        .len()
        .min(lefts.len().min(rights.len().min(sizes.len())));
    if room < n {
        return Err(ParseError::Refused(Refusal::Room));
    }
    write(&scratch, n, codes, lefts, rights, sizes);
    Ok(n)
}
