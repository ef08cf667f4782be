// The bench: one session file on standard input, a table's room of 200 formulas, the answer's lines on standard output.
#![tactic(auto)]

use std::io::Write;

// The answer goes out whole, or a line on standard error says that it didn't.
fn answer(rt: &HostRuntime, file: &[u8]) {
    let mut text = [0u8; lines::LONGEST];
    let length = lines::of_file(file, lines::BENCH_ROOM, &mut text);
    if rt.stdout().write_all(&text[..length]).is_err() {
        let _ = eprintln!(rt; "bench: the answer can't be written to standard output");
    }
}

fn main(rt: HostRuntime) {
    // One byte more than the largest good file has: of a longer one these bytes decide (`first-bytes-decide`, in proofs/Prefix of `file`).
    let mut file = [0u8; file::LARGEST + 1];
    match whole_input::fill(&mut rt.stdin(), &mut file) {
        Ok(size) => answer(&rt, &file[..size]),
        Err(_) => {
            let _ = eprintln!(rt; "bench: standard input can't be read");
        }
    }
}
