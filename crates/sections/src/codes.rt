// A section of operator codes: each in its group, none twice.
ghost use Rattle.std.specs.Prelude.{◌≡◌, [], ◌+◌, ◌-◌, ◌≤◌, ◌<◌, length, take, drop, eqb};
ghost use Rattle.reading.specs.Reading.{each_item, is_in, step_of};
ghost use Rattle.sections.specs.Sections.{group_of, code, all_codes};

use operators::in_group;
use reading::{Broken, Read, byte_within};

// Whether the code is one of the `count` from an offset on.
fn seen_code(file: &[u8], from: usize, count: usize, c: u8) -> bool
    requires { from + count ≤ length file.now }
    ensures { result ≡ is_in eqb c (take count (drop from file.now)) }
{
    file[from..from + count].contains(&c)
}

// The code after `count` codes from an offset on.
fn code_at(file: &[u8], from: usize, count: usize, unary: bool) -> Result<Read, Broken>
    requires { from + count ≤ length file.now }
    ensures { result ≡ step_of (λ c. c) (code (group_of unary) (take count (drop from file.now)) file.now (from + count)) }
{
    let at = from + count;
    if file.len() <= at {
        return Err(Broken(file.len()));
    }
    let c = file[at];
    if !in_group(c, unary) || seen_code(file, from, count, c) {
        return Err(Broken(at));
    }
    Ok(Read {
        value: c as usize,
        next: at + 1,
    })
}

// `count` codes from an offset.
fn codes_from(file: &[u8], from: usize, count: usize, unary: bool) -> Result<Read, Broken>
    requires { from ≤ length file.now }
    ensures { result ≡ step_of length (each_item (code (group_of unary)) count [] file.now from) }
{
    // A `for`, and no `try_fold`: a closure would only hand on the offset that is in `p` here.
    let mut p = from;
    for i in 0..count {
        p = code_at(file, from, i, unary)?.next;
    }
    Ok(Read {
        value: count,
        next: p,
    })
}

// A count of codes, and as many codes.
pub fn codes_section(file: &[u8], at: usize, unary: bool) -> Result<Read, Broken>
    ensures { result ≡ step_of length (all_codes (group_of unary) file.now at) }
{
    let count = byte_within(file, at, 0, 255)?;
    codes_from(file, count.next, count.value, unary)
}
