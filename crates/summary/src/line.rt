// One line of the report: session, place or `root`, the two first snapshots, count.
ghost use Rattle.writing.specs.Writing.{Wrote};
ghost use Rattle.std.specs.Prelude.{◌++◌};
ghost use Rattle.summary.specs.Line.{blank, first_text, summary_text, place_line, root_line};

use crate::values::Summary;
use rules::kinds::{Place, Session};
use writing::{put, put_decimal};

fn put_first(text: &mut [u8], at: usize, first: Option<u8>) -> usize
    ensures { Wrote text.old at (first_text first) text.new result }
{
    match first {
        None => put(text, at, b"-"),
        Some(p) => put_decimal(text, at, p as u64),
    }
}

// A blank, and one of the two.
fn put_blank_first(text: &mut [u8], at: usize, first: Option<u8>) -> usize
    ensures { Wrote text.old at (blank ++ first_text first) text.new result }
{
    let a = put(text, at, b" ");
    put_first(text, a, first)
}

// The values, and the line's end.
fn put_summary(text: &mut [u8], at: usize, s: Summary) -> usize
    ensures { Wrote text.old at (summary_text s) text.new result }
{
    let holds = s.holds;
    let fails = s.fails;
    let a = put_blank_first(text, at, holds);
    let b = put_blank_first(text, a, fails);
    let c = put(text, b, b" ");
    let d = put_decimal(text, c, s.count as u64);
    put(text, d, b"\n")
}

// The line of a place.
pub fn put_place(text: &mut [u8], at: usize, session: Session, place: Place, s: Summary) -> usize
    ensures { Wrote text.old at (place_line session.0 place.0 s) text.new result }
{
    let a = put_decimal(text, at, session.0 as u64);
    let b = put(text, a, b" ");
    let c = put_decimal(text, b, place.0 as u64);
    put_summary(text, c, s)
}

// The line of the root.
pub fn put_root(text: &mut [u8], at: usize, session: Session, s: Summary) -> usize
    ensures { Wrote text.old at (root_line session.0 s) text.new result }
{
    let a = put_decimal(text, at, session.0 as u64);
    let b = put(text, a, b" root");
    put_summary(text, b, s)
}
