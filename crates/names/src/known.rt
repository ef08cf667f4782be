// The names before one: whether it is among them.
ghost use Rattle.std.specs.Prelude.{◌≡◌, ◌+◌, ◌≤◌, length, take, drop};
ghost use Rattle.reading.specs.Reading.{is_in};
ghost use Rattle.names.specs.Names.{same_bytes};
ghost use Rattle.names.specs.Lookup.{names_from, walk_end};

use spelling::bytes::same;

// Whether the n bytes at an offset are one of the first `count` names.
pub(crate) fn known_name(file: &[u8], at: usize, n: usize, count: usize) -> bool
    requires { (walk_end file.now count 1 ≤ length file.now) × (at + n ≤ length file.now) }
    ensures { result ≡ is_in same_bytes (take n (drop at file.now)) (names_from file.now count 1) }
{
    let end = at + n;
    // No `any`: where a name starts is known only from the one before it.
    let mut p: usize = 1;
    for _ in 0..count {
        let from = p + 1;
        let to = from + file[p] as usize;
        if same(&file[at..end], &file[from..to]) {
            return true;
        }
        p = to;
    }
    false
}
