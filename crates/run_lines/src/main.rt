// Runs the lines of the bench on the files of document 01, whole outputs: S1, S1 cut to its first 12 bytes, S2 to S4 as files, and the
// rooms at their ends. The stored output is written from 01's prose.
//
// A line of standard input is an example. Its fields (`stored` says how they are written) are its name, the file in hex, and the table's room. S2 has two
// sessions of length 1 with p in both, marks 1 and 0, only `!`; S3 has p = 3, q = 4, mark 1, and p = 1, q = 4, mark 0, length 3, only `U`; S4 one empty
// session, p, all operators.
#![tactic(auto)]

use std::io;
use std::io::Write;
use stored::say;

// What the bench writes for this file with this room.
fn say_lines(to: &mut impl Write, file: &[u8], room: usize) -> io::Result<()> {
    let mut text = [0u8; lines::LONGEST];
    let length = lines::of_file(file, room, &mut text);
    say(to, &text[..length])?;
    Ok(())
}

fn example(to: &mut impl Write, line: &[u8]) -> io::Result<()> {
    say(to, stored::field(line, 0))?;
    say(to, b":\n")?;
    let mut file = [0u8; 64];
    let mut room = [0u64; 1];
    stored::list(line, 2, &mut room);
    let file = stored::hex(line, 1, &mut file);
    say_lines(to, file, room[0] as usize)
}

fn examples(to: &mut impl Write, text: &[u8]) -> io::Result<()> {
    for number in 0..stored::lines(text) {
        example(to, stored::line(text, number))?;
    }
    Ok(())
}

fn main(rt: HostRuntime) -> io::Result<()> {
    let mut room = [0u8; 65536];
    let text = stored::input(&mut rt.stdin(), &mut room)?;
    examples(&mut rt.stdout(), text)
}
