// Finding a name in a section: where the name with a number stands, and the number of the name with these bytes. Both answer for any bytes: they go by
// the count and the length bytes, as far as there are bytes, and don't judge the section again.
ghost use Rattle.std.specs.Prelude.{◌≡◌, ◌+◌, min, length, get_or};
ghost use Rattle.names.specs.Lookup.{walk_end, LettersAt, found_in};

use spelling::bytes::same;

// Where a name's letters stand: from one offset up to another.
#[derive(Clone, Copy)]
pub struct Span {
    pub from: usize,
    pub to: usize,
}

// Where the name after the one at an offset starts.
fn next(section: &[u8], at: usize) -> usize
    ensures { result ≡ min (length section.now) (at + 1 + get_or section.now at 0) }
{
    if section.len() <= at {
        return section.len();
    }
    let n = section[at] as usize;
    let left = section.len() - at - 1;
    if left < n {
        return section.len();
    }
    at + 1 + n
}

// Where the name with a number starts: at its length byte.
fn start(section: &[u8], p: usize) -> usize
    ensures { result ≡ min (length section.now) (walk_end section.now p 1) }
{
    if section.is_empty() {
        return 0;
    }
    let mut at: usize = 1;
    for _ in 0..p {
        at = next(section, at);
    }
    at
}

// Where the letters of the name with this number stand; numbers count from 0.
pub fn letters(section: &[u8], p: usize) -> Span
    ensures { LettersAt section.now p result }
{
    let at = start(section, p);
    let to = next(section, at);
    if at < section.len() {
        Span { from: at + 1, to }
    } else {
        Span { from: at, to }
    }
}

// The number of the first name with these bytes.
pub fn find(section: &[u8], word: &[u8]) -> Option<usize>
    ensures { result ≡ found_in section.now word.now }
{
    if section.is_empty() {
        return None;
    }
    let count = section[0] as usize;
    for j in 0..count {
        let Span { from, to } = letters(section, j);
        if same(word, &section[from..to]) {
            return Some(j);
        }
    }
    None
}
