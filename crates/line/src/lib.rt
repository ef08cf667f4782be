// The lines that the programs write: words and decimal numbers, one after the other.
#![tactic(auto)]

ghost use Rattle.std.specs.Prelude.{◌++◌};
ghost use Rattle.writing.specs.Writing.{Wrote, decimal};
ghost use Rattle.line.specs.Line.{count_words, found_line, none_line, full_line, broken_line, refused_line, separates_line, disagrees_line, refused_at_line};

use writing::{put, put_decimal};

// A word, and a number after it.
fn put_number(text: &mut [u8], at: usize, word: &[u8], x: u64) -> usize
    ensures { Wrote text.old at (word.now ++ decimal x) text.new result }
{
    let a = put(text, at, word);
    put_decimal(text, a, x)
}

// ` tried .. kept .. dropped ..`, and the line's end.
fn put_counts(text: &mut [u8], at: usize, tried: u64, kept: u64, dropped: u64) -> usize
    ensures { Wrote text.old at (count_words tried kept dropped) text.new result }
{
    let a = put_number(text, at, b" tried ", tried);
    let b = put_number(text, a, b" kept ", kept);
    let c = put_number(text, b, b" dropped ", dropped);
    put(text, c, b"\n")
}

// Of a search.
pub fn found(text: &mut [u8], size: u8, tried: u64, kept: usize, dropped: u64) -> usize
    ensures { Wrote text.old 0 (found_line size tried kept dropped) text.new result }
{
    let a = put_number(text, 0, b"found size ", size as u64);
    put_counts(text, a, tried, kept as u64, dropped)
}

pub fn none(text: &mut [u8], tried: u64, kept: usize, dropped: u64) -> usize
    ensures { Wrote text.old 0 (none_line tried kept dropped) text.new result }
{
    let a = put(text, 0, b"none");
    put_counts(text, a, tried, kept as u64, dropped)
}

pub fn full(text: &mut [u8], size: u8, tried: u64, kept: usize, dropped: u64) -> usize
    ensures { Wrote text.old 0 (full_line size tried kept dropped) text.new result }
{
    let a = put_number(text, 0, b"full size ", size as u64);
    put_counts(text, a, tried, kept as u64, dropped)
}

// A broken file, with the offset of its first offending byte.
pub fn broken(text: &mut [u8], at: usize) -> usize
    ensures { Wrote text.old 0 (broken_line at) text.new result }
{
    let a = put_number(text, 0, b"refused 8 at ", at as u64);
    put(text, a, b"\n")
}

pub fn refused(text: &mut [u8], number: u8) -> usize
    ensures { Wrote text.old 0 (refused_line number) text.new result }
{
    let a = put_number(text, 0, b"refused ", number as u64);
    put(text, a, b"\n")
}

// Of a typed formula.
pub fn separates(text: &mut [u8]) -> usize
    ensures { Wrote text.old 0 separates_line text.new result }
{
    put(text, 0, b"separates\n")
}

pub fn disagrees(text: &mut [u8], session: u8) -> usize
    ensures { Wrote text.old 0 (disagrees_line session) text.new result }
{
    let a = put_number(text, 0, b"session ", session as u64);
    put(text, a, b" disagrees\n")
}

// A refusal with its offset, from a place on.
pub fn refused_at(text: &mut [u8], place: usize, number: u8, at: usize) -> usize
    ensures { Wrote text.old place (refused_at_line number at) text.new result }
{
    let a = put_number(text, place, b"refused ", number as u64);
    let b = put_number(text, a, b" at ", at as u64);
    put(text, b, b"\n")
}
