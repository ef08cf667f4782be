// Runs what is said of typed formulas on S1's file and on it cut: each case of an answer, whole outputs. The stored output is written by hand from documents
// 01 and 02: S1 has two sessions of two snapshots, p at the second of the good one and nowhere in the bad one.
//
// A line of standard input has two fields, what is typed, and the file in hex: "S1, whole file (hex)" of document 01, or its first bytes.
#![tactic(auto)]

use std::io;
use std::io::Write;
use stored::say;

fn answer(to: &mut impl Write, typed: &[u8], file: &[u8]) -> io::Result<()> {
    let mut text = [0u8; suspicion::LONGEST];
    let length = suspicion::of_typed(typed, file, &mut text);
    say(to, &text[..length])?;
    Ok(())
}

// What is typed, and what is said of it.
fn example(to: &mut impl Write, line: &[u8]) -> io::Result<()> {
    let typed = stored::field(line, 0);
    say(to, b"> ")?;
    say(to, typed)?;
    say(to, b"\n")?;
    let mut file = [0u8; 64];
    let file = stored::hex(line, 1, &mut file);
    answer(to, typed, file)
}

fn examples(to: &mut impl Write, text: &[u8]) -> io::Result<()> {
    for number in 0..stored::lines(text) {
        example(to, stored::line(text, number))?;
    }
    Ok(())
}

fn main(rt: HostRuntime) -> io::Result<()> {
    let mut room = [0u8; 65536];
    let text = stored::input(&mut rt.stdin(), &mut room)?;
    examples(&mut rt.stdout(), text)
}
