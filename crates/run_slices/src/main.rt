// Runs S1 to S4 of document 01 and a larger search in slices of 1, 2, 7 and 1,000 candidates: a line for each, with how it ended after how many turns. Of one
// search the ends are the same.
#![tactic(auto)]

use counting::Counts;
use formula::kinds::Node;
use slices::{fresh, resume};
use state::{End, State};
use std::io;
use std::io::Write;
use stored::{say, say_number};

fn say_counts(to: &mut impl Write, counts: Counts) -> io::Result<()> {
    say_number(to, b" tried ", counts.tried)?;
    say_number(to, b" kept ", counts.kept as u64)?;
    say_number(to, b" dropped ", counts.dropped)?;
    Ok(())
}

fn say_next(to: &mut impl Write, x: u64) -> io::Result<()> {
    say_number(to, b" ", x)?;
    Ok(())
}

fn say_root(to: &mut impl Write, root: Node) -> io::Result<()> {
    say_number(to, b" root ", root.code as u64)?;
    say_next(to, root.left.0 as u64)?;
    say_next(to, root.right.0 as u64)?;
    say_next(to, root.size as u64)
}

// The end that a state tells.
fn say_end(to: &mut impl Write, state: State) -> io::Result<()> {
    say_number(to, b" end ", u64::from(state.end))?;
    say_number(to, b" size ", state.size as u64)?;
    say_counts(to, state.counts)?;
    say_root(to, state.root)
}

fn say_ended(to: &mut impl Write, budget: u64, turns: u64, state: State) -> io::Result<()> {
    say_number(to, b"slices of ", budget)?;
    say_number(to, b": turns ", turns)?;
    say_end(to, state)?;
    say(to, b"\n")?;
    Ok(())
}

fn say_refused(to: &mut impl Write) -> io::Result<()> {
    say(to, b"refused\n")?;
    Ok(())
}

fn say_more(to: &mut impl Write) -> io::Result<()> {
    say(to, b"more\n")?;
    Ok(())
}

// One search, in slices of `budget` candidates, until it ends.
fn in_slices(
    to: &mut impl Write,
    budget: u64,
    r: usize,
    m: usize,
    bound: usize,
    room: usize,
    marks: &[u8],
    lengths: &[u8],
    words: &[u64],
    unary: &[u8],
    binary: &[u8],
) -> io::Result<()> {
    let mut codes = [9u8; 200];
    let mut lefts = [9u16; 200];
    let mut rights = [9u16; 200];
    let mut sizes = [9u8; 200];
    let mut matrices = [9u64; 400];
    let mut state = fresh();
    for turn in 1u64..100001 {
        let answer = resume(
            r,
            m,
            bound,
            room,
            0,
            marks,
            lengths,
            words,
            unary,
            binary,
            budget,
            state,
            &mut codes,
            &mut lefts,
            &mut rights,
            &mut sizes,
            &mut matrices,
        );
        let Ok(after) = answer else {
            return say_refused(to);
        };
        state = after;
        if after.end != End::More {
            return say_ended(to, budget, turn, after);
        }
    }
    say_more(to)
}

fn each(
    to: &mut impl Write,
    name: &[u8],
    r: usize,
    m: usize,
    bound: usize,
    room: usize,
    marks: &[u8],
    lengths: &[u8],
    words: &[u64],
    unary: &[u8],
    binary: &[u8],
) -> io::Result<()> {
    say(to, name)?;
    in_slices(
        to, 1, r, m, bound, room, marks, lengths, words, unary, binary,
    )?;
    in_slices(
        to, 2, r, m, bound, room, marks, lengths, words, unary, binary,
    )?;
    in_slices(
        to, 7, r, m, bound, room, marks, lengths, words, unary, binary,
    )?;
    in_slices(
        to, 1000, r, m, bound, room, marks, lengths, words, unary, binary,
    )
}

// With every operator offered, and room for 200.
fn with_all(
    to: &mut impl Write,
    name: &[u8],
    r: usize,
    m: usize,
    bound: usize,
    marks: &[u8],
    lengths: &[u8],
    words: &[u64],
) -> io::Result<()> {
    each(
        to,
        name,
        r,
        m,
        bound,
        200,
        marks,
        lengths,
        words,
        &[0, 1, 2, 3, 4],
        &[5, 6, 7, 8, 9, 10],
    )
}

fn s1(to: &mut impl Write) -> io::Result<()> {
    with_all(to, b"S1\n", 2, 1, 4, &[1, 0], &[2, 2], &[2, 0])
}

fn s2(to: &mut impl Write, name: &[u8], bound: usize, room: usize) -> io::Result<()> {
    each(
        to,
        name,
        2,
        1,
        bound,
        room,
        &[1, 0],
        &[1, 1],
        &[1, 1],
        &[0],
        &[],
    )
}

fn s3(to: &mut impl Write) -> io::Result<()> {
    each(
        to,
        b"S3\n",
        2,
        2,
        3,
        200,
        &[1, 0],
        &[3, 3],
        &[3, 4, 1, 4],
        &[],
        &[7],
    )
}

fn s4(to: &mut impl Write) -> io::Result<()> {
    with_all(to, b"S4, B = 3\n", 1, 1, 3, &[1], &[0], &[0])
}

fn copied(to: &mut impl Write) -> io::Result<()> {
    with_all(
        to,
        b"p and its copy, which nothing separates, B = 7, C = 200\n",
        2,
        2,
        7,
        &[1, 0],
        &[5, 5],
        &[19, 6, 19, 6],
    )
}

fn main(rt: HostRuntime) -> io::Result<()> {
    let to = &mut rt.stdout();
    s1(to)?;
    s2(to, b"S2, B = 2\n", 2, 200)?;
    s2(to, b"S2, C = 1\n", 2, 1)?;
    s2(to, b"S2, B = 3 and C = 2\n", 3, 2)?;
    s3(to)?;
    s4(to)?;
    copied(to)
}
