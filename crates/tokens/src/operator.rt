// The infix operator that comes next.
ghost use Rattle.tokens.specs.Next.{Operator, Arrow, Word};

use crate::{Stop, bytes};
use spelling::letter::is_name_byte;

// An infix operator: its level, the lowest level at its right, its end and its code.
#[derive(Clone, Copy)]
pub struct Infix {
    pub next: usize,
    pub level: u8,
    pub right: u8,
    pub code: u8,
}

// What comes next: an infix operator; or none, and then the offset behind the spaces.
#[derive(Clone, Copy)]
pub enum Next {
    Infix(Infix),
    Nothing(usize),
}

// `>`, the last byte of an operator; which levels may stand at its right.
fn arrow(text: &[u8], at: usize, code: u8, right: u8) -> Result<Next, Stop>
    ensures { Arrow text.now at code right result }
{
    if bytes::byte(text, at) != b'>' {
        return Err(Stop(at));
    }
    Ok(Next::Infix(Infix {
        level: 0,
        right,
        next: at + 1,
        code,
    }))
}

// Behind `U` and `R`, after which no word's byte may come; which levels may stand at their right.
fn word_op(text: &[u8], at: usize, code: u8, right: u8) -> Result<Next, Stop>
    ensures { Word text.now at code right result }
{
    if is_name_byte(bytes::byte(text, at)) {
        return Err(Stop(at));
    }
    Ok(Next::Infix(Infix {
        level: 3,
        right,
        next: at,
        code,
    }))
}

// Where no operator begins, or past the end of the text, the offset behind the spaces.
pub fn operator(text: &[u8], at: usize) -> Result<Next, Stop>
    ensures { Operator text.now at result }
{
    if text.len() <= at {
        return Ok(Next::Nothing(at));
    }
    // Spaces by a return of their own, and not by an arm of the match: so the arms' answers don't pass through one more copy.
    let b = text[at];
    if b == b' ' {
        return operator(text, at + 1);
    }
    match b {
        b'&' => Ok(Next::Infix(Infix {
            level: 2,
            right: 3,
            next: at + 1,
            code: 6,
        })),
        b'|' => Ok(Next::Infix(Infix {
            level: 1,
            right: 2,
            next: at + 1,
            code: 5,
        })),
        b'-' => arrow(text, at + 1, 9, 0),
        b'<' => {
            if bytes::byte(text, at + 1) != b'-' {
                return Err(Stop(at + 1));
            }
            arrow(text, at + 2, 10, 0)
        }
        b'U' => word_op(text, at + 1, 7, 3),
        b'R' => word_op(text, at + 1, 8, 3),
        _ => Ok(Next::Nothing(at)),
    }
}
