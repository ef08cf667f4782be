// Whether a name is taken: by a reserved word, or by a name before it.
ghost use Rattle.std.specs.Prelude.{◌≡◌, ◌+◌, ◌≤◌, length, take, drop};
ghost use Rattle.names.specs.Names.{is_taken};
ghost use Rattle.names.specs.Lookup.{names_from, walk_end};

use crate::known::known_name;
use spelling::reserved::is_reserved;

// Whether the n bytes at an offset can't be taken for a name: a reserved word, or one of the first `count` names.
pub(crate) fn taken_name(file: &[u8], at: usize, n: usize, count: usize) -> bool
    requires { (walk_end file.now count 1 ≤ length file.now) × (at + n ≤ length file.now) }
    ensures { result ≡ is_taken (names_from file.now count 1) (take n (drop at file.now)) }
{
    let end = at + n;
    if is_reserved(&file[at..end]) {
        return true;
    }
    known_name(file, at, n, count)
}
