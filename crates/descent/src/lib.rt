// A typed text judged, and read by recursive descent: infix, prefix and bracket functions call each other. Its tree's nodes go packed into a scratch.
#![tactic(auto)]

mod closing;
pub mod judge;
mod leaves;
mod nodes;

ghost use Rattle.std.specs.Prelude.{◌+◌, ◌≤◌};
ghost use Rattle.descent.specs.Answers.{Room, Infix, More, Prefix, Bracket, WholeText};

use nodes::{put, put_one, put_two};
use operand::{Awaited, front};
use tokens::Stop;
use tokens::operator::{Next, operator};

// Where what was read ends, and its size.
#[derive(Clone, Copy)]
pub(crate) struct Got {
    pub(crate) next: usize,
    pub(crate) size: usize,
}

// A whole text: the size of a formula, or the offset of refusal 11.
pub(crate) fn read_text(names: &[u8], text: &[u8], scratch: &mut [u64]) -> Result<usize, Stop>
    requires { Room names.now text.now scratch.old 0 0 }
    ensures { WholeText names.now scratch.old scratch.new text.now result }
{
    let whole = read_infix(names, text, 0, 0, 0, scratch)?;
    closing::ending(text, whole.next)?;
    Ok(whole.size)
}

// An expression whose operators outside brackets are of this level or above.
#[cycle(read_bracket_read_infix_read_more_read_prefix)]
fn read_infix(
    names: &[u8],
    text: &[u8],
    at: usize,
    level: u8,
    place: usize,
    scratch: &mut [u64],
) -> Result<Got, Stop>
    requires { Room names.now text.now scratch.old place at × (level ≤ 4) }
    ensures { Infix names.now place scratch.old scratch.new text.now level at result }
{
    let left = read_prefix(names, text, at, place, scratch)?;
    read_more(names, text, left.next, level, left.size, place, scratch)
}

// What goes on after an expression of this size, whose nodes stand from a place on.
#[cycle(read_bracket_read_infix_read_more_read_prefix)]
fn read_more(
    names: &[u8],
    text: &[u8],
    at: usize,
    level: u8,
    size: usize,
    place: usize,
    scratch: &mut [u64],
) -> Result<Got, Stop>
    requires { Room names.now text.now scratch.old (place + size) at × (1 ≤ size) }
    ensures { More names.now place scratch.old scratch.new text.now level at size result }
{
    match operator(text, at)? {
        Next::Nothing(_) => Ok(Got { next: at, size }),
        Next::Infix(o) => {
            if o.level < level {
                return Ok(Got { next: at, size });
            }
            let behind = place + size;
            let right = read_infix(names, text, o.next, o.right, behind, scratch)?;
            put_two(scratch, o.code, behind, size, right.size);
            let whole = 1 + (size + right.size);
            read_more(names, text, right.next, level, whole, place, scratch)
        }
    }
}

// An operand.
#[cycle(read_bracket_read_infix_read_more_read_prefix)]
fn read_prefix(
    names: &[u8],
    text: &[u8],
    at: usize,
    place: usize,
    scratch: &mut [u64],
) -> Result<Got, Stop>
    requires { Room names.now text.now scratch.old place at }
    ensures { Prefix names.now place scratch.old scratch.new text.now at result }
{
    match front(text, at)? {
        Awaited::Operator { next, code } => {
            let operand = read_prefix(names, text, next, place, scratch)?;
            put_one(scratch, code, place, operand.size);
            Ok(Got {
                next: operand.next,
                size: 1 + operand.size,
            })
        }
        Awaited::Open(next) => read_bracket(names, text, next, place, scratch),
        Awaited::Word { next, start } => {
            let leaf = leaves::leaf_of(names, text, start, next - start);
            put(scratch, place, leaf.code, leaf.left, 0, 1);
            Ok(Got { next, size: 1 })
        }
    }
}

// What stands behind an opening bracket, up to the closing one.
#[cycle(read_bracket_read_infix_read_more_read_prefix)]
fn read_bracket(
    names: &[u8],
    text: &[u8],
    at: usize,
    place: usize,
    scratch: &mut [u64],
) -> Result<Got, Stop>
    requires { Room names.now text.now scratch.old place at }
    ensures { Bracket names.now place scratch.old scratch.new text.now at result }
{
    let inside = read_infix(names, text, at, 0, place, scratch)?;
    let next = closing::closing(text, inside.next)?;
    Ok(Got {
        next,
        size: inside.size,
    })
}
