// A names section (document 01, "The session file"): names of 1 to 16 letters, digits or `_`, a letter first, no name twice, no reserved word. Judging one, and finding a
// name in it.
#![tactic(auto)]

mod known;
mod letter;
pub mod lookup;
mod reserved;

ghost use Rattle.std.specs.Prelude.{◌≡◌, [], ◌≤◌, length};
ghost use Rattle.reading.specs.Reading.{each_item, step_of};
ghost use Rattle.names.specs.Names.{name, names_up_to};
ghost use Rattle.names.specs.Lookup.{names_from, walk_end};
ghost use Rattle.names.specs.Judged.{said_names, names_said};

use letter::letters_from;
use reading::{Broken, Read, byte_within};
use reserved::taken_name;

// Document 01's numbers for a names section; for the contracts they are in specs/Names.antt.
const PROPOSITIONS: usize = rules::PROPOSITIONS;

pub const NAME_LENGTH: usize = 16;

// The name at an offset, after `count` names.
fn name_at(file: &[u8], at: usize, count: usize) -> Result<Read, Broken>
    requires { walk_end file.now count 1 ≤ length file.now }
    ensures { result ≡ step_of length (name (names_from file.now count 1) file.now at) }
{
    let n = byte_within(file, at, 1, crate::NAME_LENGTH)?;
    let letters = letters_from(file, n.next, n.value)?;
    if taken_name(file, n.next, n.value, count) {
        return Err(Broken(at));
    }
    Ok(letters)
}

// `count` names from offset 1.
fn names_from(file: &[u8], count: usize) -> Result<Read, Broken>
    requires { 1 ≤ length file.now }
    ensures { result ≡ step_of length (each_item name count [] file.now 1) }
{
    // A `for`, and no `try_fold`: a closure would only hand on the offset that is in `p` here.
    let mut p: usize = 1;
    for i in 0..count {
        p = name_at(file, p, i)?.next;
    }
    Ok(Read {
        value: count,
        next: p,
    })
}

// The names section at the start of a file: at most so many names. Anything may follow.
pub fn section(file: &[u8], most: usize) -> Result<Read, Broken>
    ensures { result ≡ step_of length (names_up_to most file.now 0) }
{
    let count = byte_within(file, 0, 1, most)?;
    names_from(file, count.value)
}

// How many names are in a names section with nothing after it, as print takes it.
pub fn judge(file: &[u8]) -> Result<usize, Broken>
    ensures { said_names result ≡ names_said file.now }
{
    let names = section(file, crate::PROPOSITIONS)?;
    if names.next != file.len() {
        return Err(Broken(names.next));
    }
    Ok(names.value)
}
