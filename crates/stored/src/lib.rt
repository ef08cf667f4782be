// What the programs that run stored examples share: the lines of a text, the lists of numbers of a line, and numbers and lists said on standard output.
//
// A line has fields with a `/` between them. A field of numbers has them in decimal with spaces between them; `7:3` is 7 three times, and a byte that is no
// digit, colon or space is passed over. Lines and fields are counted from 0.
#![tactic(auto)]

ghost use Rattle.std.specs.Prelude.{◌≡◌, ℕ, ◌+◌, ◌<◌, ◌≤◌, ◌++◌, ◌∷◌, [], IfOk, OnErr, OnOk, decimal, length, min};
ghost use Rattle.std.specs.Io.KnownBytes.{Appends, Consumes, IsAtEnd};
ghost use Rattle.stored.specs.Digits.{IsDigitCount};
ghost use Rattle.stored.specs.Failures.{LostAtMost, SaidFront};
ghost use Rattle.stored.specs.Lists.{listed};

use itoa::{Buffer, Integer};
use std::io;
use std::io::{ErrorKind, Read, Write};

// The part of a text by its number, where a byte ends each part but the last; a part that isn't there is empty.
fn part(text: &[u8], number: usize, end: u8) -> &[u8]
    ensures { length result.now ≤ length text.now }
{
    match text.split(|b| *b == end).nth(number) {
        Some(found) => found,
        None => &[],
    }
}

// Standard input, as much of it as there is room for. Where a read fails, what was read before it is lost.
pub fn input<'a, R: Read>(from: &mut R, room: &'a mut [u8]) -> io::Result<&'a mut [u8]>
    ensures within { IfOk result (λ r. length r.now ≤ length room.old) }
    ensures taken { IfOk result (λ r. Consumes (R.remaining from.old) (R.remaining from.new) r.now) }
    ensures ended { IfOk result (λ r. length r.now < length room.old → IsAtEnd (R.remaining from.new)) }
    ensures err { OnErr result (LostAtMost (R.remaining from.old) (R.remaining from.new) (length room.old)) }
{
    let n = whole_input::fill(from, room)?;
    Ok(&mut room[..n])
}

// How many lines a text has.
pub fn lines(text: &[u8]) -> usize
    ensures { result ≤ length text.now }
{
    text.split_inclusive(|b| *b == b'\n').count()
}

// A text's line by its number, without its end.
pub fn line(text: &[u8], number: usize) -> &[u8]
    ensures { length result.now ≤ length text.now }
{
    part(text, number, b'\n')
}

// A line's field by its number.
pub fn field(line: &[u8], number: usize) -> &[u8]
    ensures { length result.now ≤ length line.now }
{
    part(line, number, b'/')
}

// What stands for a number that was read: of a type that doesn't hold it, the greatest.
pub trait Number: Copy {
    ghost nearest: { ℕ → Self };

    fn nearest(x: u64) -> Self
        ensures { result ≡ nearest x };
}

impl Number for u8 {
    ghost nearest = { λ x. min x 255 };

    fn nearest(x: u64) -> u8 {
        u8::try_from(x).unwrap_or(u8::MAX)
    }
}

impl Number for u16 {
    ghost nearest = { λ x. min x 65535 };

    fn nearest(x: u64) -> u16 {
        u16::try_from(x).unwrap_or(u16::MAX)
    }
}

impl Number for u64 {
    ghost nearest = { λ x. x };

    fn nearest(x: u64) -> u64 {
        x
    }
}

// What was read of a number: none of its digits, some of them, or, from a colon on, how often it stands too.
#[derive(Clone, Copy)]
enum Begun {
    Nothing,
    Once(u64),
    Times(u64, u64),
}

impl Begun {
    // The number and how often.
    fn told(self) -> (u64, u64) {
        match self {
            Begun::Nothing => (0, 0),
            Begun::Once(value) => (value, 1),
            Begun::Times(value, times) => (value, times),
        }
    }

    fn with_digit(self, digit: u8) -> Begun {
        match self {
            Begun::Nothing => Begun::Once(digit as u64),
            Begun::Once(value) => Begun::Once(more(value, digit)),
            Begun::Times(value, times) => Begun::Times(value, more(times, digit)),
        }
    }

    // One byte more. A space begins anew.
    fn with(self, b: u8) -> Begun {
        match b {
            b' ' => Begun::Nothing,
            b':' => Begun::Times(self.told().0, 0),
            b'0'..=b'9' => self.with_digit(b - b'0'),
            _ => self,
        }
    }
}

// The number with one digit more.
fn more(x: u64, digit: u8) -> u64 {
    x.wrapping_mul(10).wrapping_add(digit as u64)
}

// A number goes into a list behind its first `n`, as often as it was told and there is room; how many are there then is answered.
fn push<T: Number>(to: &mut [T], n: usize, begun: Begun) -> usize
    requires { n ≤ length to.old }
    ensures { (result ≤ length to.new) × (length to.new ≡ length to.old) }
{
    let (value, times) = begun.told();
    let end = n.saturating_add(times as usize).min(to.len());
    to[n..end].fill_with(|| T::nearest(value));
    end
}

// A line's list of numbers by its field, as many as there is room for: the part of the room that holds it.
pub fn list<'a, T: Number>(line: &[u8], number: usize, to: &'a mut [T]) -> &'a mut [T]
    ensures { length result.now ≤ length to.old }
{
    let mut n: usize = 0;
    let mut begun = Begun::Nothing;
    for b in field(line, number) {
        if *b == b' ' {
            n = push(to, n, begun);
        }
        begun = begun.with(*b);
    }
    let end = push(to, n, begun);
    &mut to[..end]
}

// The value of a hex digit in capitals; 0 for any other byte.
fn digit(b: u8) -> u8
    ensures { result < 16 }
{
    match b {
        b'0'..=b'9' => b - b'0',
        b'A'..=b'F' => b - b'A' + 10,
        _ => 0,
    }
}

// A list of bytes whose field has them in hex, two digits in capitals each and nothing between them.
pub fn hex<'a>(line: &[u8], number: usize, to: &'a mut [u8]) -> &'a mut [u8]
    ensures { length result.now ≤ length to.old }
{
    let (pairs, _) = field(line, number).as_chunks::<2>();
    for (byte, [high, low]) in to.iter_mut().zip(pairs) {
        *byte = digit(*high) * 16 + digit(*low);
    }
    let n = pairs.len().min(to.len());
    &mut to[..n]
}

// The one number of a field.
fn asked(line: &[u8], number: usize) -> usize {
    let mut one = [0u64; 1];
    list(line, number, &mut one);
    one[0] as usize
}

// The first bytes of a room, as many as the line's field says, if there are so many.
pub fn room<'a>(line: &[u8], number: usize, to: &'a mut [u8]) -> &'a mut [u8]
    ensures { length result.now ≤ length to.old }
{
    let n = asked(line, number).min(to.len());
    &mut to[..n]
}

// Bytes are written, all of them or a front: std's `write_all` says nothing of the front. A write that a signal interrupts has failed, as a read has. The only
// errors are the writer's own and that of a writer that takes no byte.
fn put<W: Write>(to: &mut W, text: &[u8]) -> io::Result<()>
    ensures said { OnOk result (Appends (W.contents to.old) (W.contents to.new) text.now) }
    ensures err { OnErr result (SaidFront (W.contents to.old) (W.contents to.new) text.now) }
{
    let mut at: usize = 0;
    while at < text.len() {
        let n = to.write(&text[at..])?;
        if n == 0 {
            return Err(io::Error::new(ErrorKind::WriteZero, "failed to write whole buffer"));
        }
        at += n;
    }
    Ok(())
}

// Bytes are written; how many they are is answered.
pub fn say<W: Write>(to: &mut W, text: &[u8]) -> io::Result<usize>
    ensures len { IfOk result (λ n. n ≡ length text.now) }
    ensures said { OnOk result (Appends (W.contents to.old) (W.contents to.new) text.now) }
    ensures err { OnErr result (SaidFront (W.contents to.old) (W.contents to.new) text.now) }
{
    put(to, text)?;
    Ok(text.len())
}

// Bytes, and then a number in decimal; its digits are counted.
pub fn say_number<W: Write>(to: &mut W, before: &[u8], x: u64) -> io::Result<usize>
    ensures digits { IfOk result (IsDigitCount 10 1 x) }
    ensures said { OnOk result (Appends (W.contents to.old) (W.contents to.new) (before.now ++ decimal x)) }
    ensures err { OnErr result (SaidFront (W.contents to.old) (W.contents to.new) (before.now ++ decimal x)) }
{
    say(to, before)?;
    let mut buffer = Buffer::new();
    say(to, buffer.format(x).as_bytes())
}

// A bar comes before a list, and a space before each of its numbers.
fn say_bar<W: Write>(to: &mut W) -> io::Result<()>
    ensures said { OnOk result (Appends (W.contents to.old) (W.contents to.new) (32 ∷ 124 ∷ [])) }
    ensures err { OnErr result (SaidFront (W.contents to.old) (W.contents to.new) (32 ∷ 124 ∷ [])) }
{
    put(to, b" |")
}

fn say_next<W: Write, T: Integer>(to: &mut W, x: T) -> io::Result<()>
    ensures said { OnOk result (Appends (W.contents to.old) (W.contents to.new) (32 ∷ T.text x)) }
    ensures err { OnErr result (SaidFront (W.contents to.old) (W.contents to.new) (32 ∷ T.text x)) }
{
    put(to, b" ")?;
    let mut buffer = Buffer::new();
    put(to, buffer.format(x).as_bytes())
}

// A bar, and a list's numbers with a space before each; how many they are is answered.
pub fn say_list<W: Write, T: Integer>(to: &mut W, list: &[T]) -> io::Result<usize>
    ensures count { IfOk result (λ n. n ≡ length list.now) }
    ensures said { OnOk result (Appends (W.contents to.old) (W.contents to.new) (listed T.text list.now)) }
    ensures err { OnErr result (SaidFront (W.contents to.old) (W.contents to.new) (listed T.text list.now)) }
{
    say_bar(to)?;
    for x in list {
        say_next(to, *x)?;
    }
    Ok(list.len())
}
