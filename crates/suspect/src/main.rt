// The analyst's suspicion: a formula as the first argument, a session file on standard input, and on standard output whether the formula separates the
// sessions, the first that disagrees, or the refusal.
#![tactic(auto)]

use std::env::{Env, FillError};
use std::io::Write;

fn complain(rt: &impl Eprint, what: &str) {
    let _ = rt.eprintln(what);
}

// The answer goes out whole, or a line on standard error says that it didn't.
fn answer(rt: &HostRuntime, typed: &[u8], file: &[u8]) {
    let mut text = [0u8; suspicion::LONGEST];
    let length = suspicion::of_typed(typed, file, &mut text);
    if rt.stdout().write_all(&text[..length]).is_err() {
        complain(
            rt,
            "suspect: the answer can't be written to standard output",
        );
    }
}

fn judge(rt: &HostRuntime, typed: &[u8]) {
    // One byte more than the largest good file has: of a longer one these bytes decide (`first-bytes-decide`, in proofs/Prefix of `file`).
    let mut file = [0u8; file::LARGEST + 1];
    match whole_input::fill(&mut rt.stdin(), &mut file) {
        Ok(size) => answer(rt, typed, &file[..size]),
        Err(_) => complain(rt, "suspect: standard input can't be read"),
    }
}

fn main(rt: HostRuntime) {
    // One byte more than a text may have: of a longer one these bytes are refused as the whole is, by their number.
    let mut typed = [0u8; rules::TYPED + 1];
    match rt.arg(1, &mut typed) {
        Ok(length) => judge(&rt, &typed[..length]),
        Err(FillError::TooLong) => judge(&rt, &typed),
        Err(FillError::NotPresent) => complain(
            &rt,
            "suspect: usage: suspect FORMULA <FILE.session",
        ),
    }
}
