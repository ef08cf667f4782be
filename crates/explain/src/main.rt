// One session file on standard input as at the bench; on standard output the report on the formula found, and where none is found what the bench says.
#![tactic(auto)]

use std::io::Write;

// The answer goes out whole, or a line on standard error says that it didn't.
fn answer(rt: &HostRuntime, file: &[u8]) {
    let mut text = [0u8; report::LONGEST];
    let length = explanation::of_file(file, &mut text);
    if rt.stdout().write_all(&text[..length]).is_err() {
        let _ = eprintln!(rt; "explain: the answer can't be written to standard output");
    }
}

fn main(rt: HostRuntime) {
    // One byte more than the largest good file has: of a longer one these bytes decide (`first-bytes-decide`, in proofs/Prefix of `file`).
    let mut file = [0u8; file::LARGEST + 1];
    match whole_input::fill(&mut rt.stdin(), &mut file) {
        Ok(size) => answer(&rt, &file[..size]),
        Err(_) => {
            let _ = eprintln!(rt; "explain: standard input can't be read");
        }
    }
}
