// Answers queries to the operators: standard input has one a line, standard output gets an answer for each.
//
// A query has 72 bytes: `u` or `b` for apply_unary or apply_binary, two hex digits of the code, then four
// times a space and 16 hex digits: left length, left word, right length, right word, and a line end. For `u`
// the right two are read and ignored. An answer has 37 bytes: two hex digits of the refusal number (00:
// answered), a space and 16 digits of the length, a space and 16 of the word (zeros where refused), and a
// line end. Digits are lower-case. What is no query, or is cut off, is answered by ff.
#![tactic(auto)]

ghost use Rattle.std.specs.Prelude.{◌≤◌, length};

use rules::refusal::Refusal;
use sequence::CharSeq;
use std::io;
use std::io::{Read, Write};

const QUERY: usize = 72;

const LINE: usize = 37;

const LINES: usize = 256;

const DIGITS: &[u8; 16] = b"0123456789abcdef";

// The value of a lower-case hex digit.
fn digit(b: u8) -> Option<u8> {
    match b {
        b'0'..=b'9' => Some(b - b'0'),
        b'a'..=b'f' => Some(b - b'a' + 10),
        _ => None,
    }
}

// The number that hex digits stand for; of more than 16 the last 16 count.
fn read_hex(digits: &[u8]) -> Option<u64> {
    let mut value: u64 = 0;
    for b in digits {
        value = (value << 4) | digit(*b)? as u64;
    }
    Some(value)
}

// A space and hex digits.
fn read_field(field: &[u8]) -> Option<u64> {
    read_hex(field.strip_prefix(b" ")?)
}

// A field for the length and one for the word. Nothing says that the sequence is well formed.
fn read_sequence(fields: &[u8]) -> Option<CharSeq>
    requires { 17 ≤ length fields.now }
{
    let (size, word) = fields.split_at(17);
    Some(CharSeq {
        length: read_field(size)? as usize,
        values: read_field(word)?,
    })
}

// The operators' answer to a query; none where it isn't one.
fn answer(text: &[u8]) -> Option<Result<CharSeq, Refusal>> {
    let query = text.as_array::<QUERY>()?;
    if query[71] != b'\n' {
        return None;
    }
    let code = (read_hex(&query[1..3])? % 256) as u8;
    let left = read_sequence(&query[3..37])?;
    let right = read_sequence(&query[37..71])?;
    match query[0] {
        b'u' => Some(operators::apply_unary(code, left)),
        b'b' => Some(operators::apply_binary(code, left, right)),
        _ => None,
    }
}

// The numbers of a line of the output: of the refusal, the length, the word.
fn numbers(answer: Option<Result<CharSeq, Refusal>>) -> (u8, u64, u64) {
    match answer {
        Some(Ok(seq)) => (0, seq.length as u64, seq.values),
        Some(Err(refusal)) => (refusal.into(), 0, 0),
        None => (255, 0, 0),
    }
}

// Writes the last hex digits of the value, as many as there is room for, the first one first.
fn write_hex(to: &mut [u8], value: u64) {
    let mut rest = value;
    for place in to.iter_mut().rev() {
        *place = DIGITS[(rest % 16) as usize];
        rest /= 16;
    }
}

fn write_line(line: &mut [u8; LINE], answer: Option<Result<CharSeq, Refusal>>) {
    let (number, length, word) = numbers(answer);
    *line = [b' '; LINE];
    write_hex(&mut line[..2], number as u64);
    write_hex(&mut line[3..19], length);
    write_hex(&mut line[20..36], word);
    line[36] = b'\n';
}

// Answers the queries of the text, the last one perhaps cut off, as many as there are lines for; answers how many there were.
fn answer_lines(text: &[u8], lines: &mut [[u8; LINE]; LINES]) -> usize
    ensures { result ≤ 256 }
{
    for (line, query) in lines.iter_mut().zip(text.chunks(QUERY)) {
        write_line(line, answer(query));
    }
    text.len().div_ceil(QUERY).min(LINES)
}

// Reads as many as 256 queries and answers them. Says whether there may be more.
fn answer_some(from: &mut impl Read, to: &mut impl Write) -> io::Result<bool> {
    let mut text = [0u8; LINES * QUERY];
    let mut lines = [[0u8; LINE]; LINES];
    let n = whole_input::fill(from, &mut text)?;
    let answered = answer_lines(&text[..n], &mut lines);
    to.write_all(lines[..answered].as_flattened())?;
    Ok(n == text.len())
}

// Nothing says that the input ends, so the turns are counted up to a number that no run reaches.
fn main(rt: HostRuntime) -> io::Result<()> {
    for _ in 0..u64::MAX {
        if !answer_some(&mut rt.stdin(), &mut rt.stdout())? {
            break;
        }
    }
    Ok(())
}
