// What stands where an operand is awaited: a prefix operator, an opening bracket or a leaf.
#![tactic(auto)]

ghost use Rattle.std.specs.Prelude.{◌≡◌, true, ◌≤◌, ◌<◌, ◌+◌, length, get_or};
ghost use Rattle.names.specs.Names.{name_length, is_letter};
ghost use Rattle.operand.specs.Front.{Front, Fronts, Ran, Strong};

use spelling::letter::{is_letter, is_name_byte};
use tokens::{Stop, bytes};

// A prefix operator, an opening bracket or a leaf, up to its end.
#[derive(Clone, Copy)]
pub enum Awaited {
    Operator { next: usize, code: u8 },
    Open(usize),
    Word { next: usize, start: usize },
}

// The end of a word's bytes, at most a name's from its start.
fn run(text: &[u8], start: usize, i: usize) -> usize
    requires { (start < i) × (i ≤ start + name_length) × (i ≤ length text.now) }
    ensures { Ran text.now start i result }
{
    if names::NAME_LENGTH <= i - start {
        return i;
    }
    if is_name_byte(bytes::byte(text, i)) {
        return run(text, start, i + 1);
    }
    i
}

// `!]`, behind `X[`.
fn strong(text: &[u8], at: usize) -> Result<Awaited, Stop>
    requires { at ≤ length text.now }
    ensures { Strong text.now at result }
{
    if bytes::byte(text, at) != b'!' {
        return Err(Stop(at));
    }
    if bytes::byte(text, at + 1) != b']' {
        return Err(Stop(at + 1));
    }
    Ok(Awaited::Operator {
        next: at + 2,
        code: 2,
    })
}

// A word that begins here, with the letter b.
fn word(text: &[u8], at: usize, b: u8) -> Result<Awaited, Stop>
    requires { (at < length text.now) × (get_or text.now at 0 ≡ b) × (is_letter b ≡ true) }
    ensures { Fronts text.now at result }
{
    let end = run(text, at, at + 1);
    let c = bytes::byte(text, end);
    if is_name_byte(c) {
        return Err(Stop(end));
    }
    if end == at + 1 {
        match b {
            b'X' => {
                if c == b'[' {
                    return strong(text, end + 1);
                }
                return Ok(Awaited::Operator { next: end, code: 1 });
            }
            b'F' => return Ok(Awaited::Operator { next: end, code: 3 }),
            b'G' => return Ok(Awaited::Operator { next: end, code: 4 }),
            b'U' | b'R' => return Err(Stop(end)),
            _ => {}
        }
    }
    Ok(Awaited::Word {
        next: end,
        start: at,
    })
}

// The operand's first token behind the spaces.
pub fn front(text: &[u8], at: usize) -> Result<Awaited, Stop>
    ensures { Front text.now at result }
{
    if text.len() <= at {
        return Err(Stop(at));
    }
    let b = text[at];
    match b {
        b' ' => front(text, at + 1),
        b'!' => Ok(Awaited::Operator {
            next: at + 1,
            code: 0,
        }),
        b'(' => Ok(Awaited::Open(at + 1)),
        _ => {
            if is_letter(b) {
                return word(text, at, b);
            }
            Err(Stop(at))
        }
    }
}
