// The sessions section: mark, length and m words a session.
ghost use Rattle.std.specs.Prelude.{◌≡◌, [], ◌+◌, ◌^◌, ◌≤◌, ◌<◌, length, ltb};
ghost use Rattle.words.specs.Word.{width};
ghost use Rattle.reading.specs.Reading.{each_item, step_of};
ghost use Rattle.sections.specs.Sections.{eight_bytes, session, all_sessions};
ghost use Rattle.sections.specs.Inner.{nothing, word_count};

use crate::bytes::{bytes_left, word_at};
use reading::{Broken, Read, byte_within};
use sequence::CharSeq;

// The most sessions of a file; for the contracts it is in specs/Numbers.antt. It is the file's own, since a later request raises the library's alone.
const SESSIONS: usize = 32;

// No bit at or above n is set.
fn is_clear(n: usize, w: u64) -> bool
    requires { n ≤ width }
    ensures { result ≡ ltb w (2 ^ n) }
{
    CharSeq::recorded(n, w).is_ok()
}

// The word at an offset, of a session of length n.
fn word_step(file: &[u8], at: usize, n: usize) -> Result<Read, Broken>
    requires { n ≤ width }
    ensures { result ≡ step_of nothing (eight_bytes n file.now at) }
{
    if bytes_left(file, at) < 8 {
        return Err(Broken(file.len()));
    }
    if !is_clear(n, word_at(file, at)) {
        return Err(Broken(at));
    }
    Ok(Read {
        value: 0,
        next: at + 8,
    })
}

// m words of a session of length n.
fn words_from(file: &[u8], at: usize, n: usize, m: usize) -> Result<Read, Broken>
    requires { n ≤ width }
    ensures { result ≡ step_of length (each_item (λ _. eight_bytes n) m [] file.now at) }
{
    // A `for`, and no `try_fold`: a closure would only hand on the offset that is in `p` here.
    let mut p = at;
    for _ in 0..m {
        p = word_step(file, p, n)?.next;
    }
    Ok(Read { value: m, next: p })
}

fn session_at(file: &[u8], at: usize, m: usize) -> Result<Read, Broken>
    ensures { result ≡ step_of word_count (session m file.now at) }
{
    let mark = byte_within(file, at, 0, 1)?;
    let length = byte_within(file, mark.next, 0, CharSeq::MAX_LENGTH)?;
    words_from(file, length.next, length.value, m)
}

// `count` sessions from an offset.
fn sessions_from(file: &[u8], at: usize, m: usize, count: usize) -> Result<Read, Broken>
    ensures { result ≡ step_of length (each_item (λ _. session m) count [] file.now at) }
{
    // A `for`, and no `try_fold`: a closure would only hand on the offset that is in `p` here.
    let mut p = at;
    for _ in 0..count {
        p = session_at(file, p, m)?.next;
    }
    Ok(Read {
        value: count,
        next: p,
    })
}

// A count of sessions, and as many sessions of m words.
pub fn sessions_section(file: &[u8], at: usize, m: usize) -> Result<Read, Broken>
    ensures { result ≡ step_of length (all_sessions m file.now at) }
{
    let count = byte_within(file, at, 1, SESSIONS)?;
    sessions_from(file, count.next, m, count.value)
}
