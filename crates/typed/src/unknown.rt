// The first unknown name of a text.
ghost use Rattle.std.specs.Prelude.{◌≤◌, ◌<◌, length};
ghost use Rattle.names.specs.Lookup.{names_by};
ghost use Rattle.typed.specs.Answers.{MissingIs};
ghost use Rattle.typed.specs.Inner.{RunTo, KnownIs, PassedIs};

use names::lookup::find;
use spelling::letter::is_name_byte;
use spelling::reserved::is_reserved;

// Where a run of a word's bytes ends.
fn run_end(text: &[u8], start: usize) -> usize
    requires { start ≤ length text.now }
    ensures { RunTo text.now start result }
{
    for i in start..text.len() {
        if !is_name_byte(text[i]) {
            return i;
        }
    }
    text.len()
}

// Whether a word is reserved, or one of the names.
fn known(names: &[u8], word: &[u8]) -> bool
    ensures { KnownIs (names_by names.now) word.now result }
{
    is_reserved(word) || find(names, word).is_some()
}

// The offset after what is passed at this one; none where an unknown name stands there.
fn pass(names: &[u8], text: &[u8], i: usize) -> Option<usize>
    requires { i < length text.now }
    ensures { PassedIs (names_by names.now) text.now i result }
{
    let end = run_end(text, i);
    if end == i {
        return Some(i + 1);
    }
    if known(names, &text[i..end]) {
        return Some(end);
    }
    None
}

// The offset of the first unknown name; none where every name is known. The names are those of the section's bytes, by its count and length bytes: of a
// good section these are its names.
pub fn unknown(names: &[u8], text: &[u8]) -> Option<usize>
    ensures { MissingIs (names_by names.now) text.now result }
{
    // A `while`, since each turn goes on from where the last one ended: no index is counted.
    let mut i: usize = 0;
    while i < text.len() {
        let Some(next) = pass(names, text, i) else {
            return Some(i);
        };
        i = next;
    }
    None
}
