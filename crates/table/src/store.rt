// Room for a formula at a place, and its matrix written there.
ghost use Rattle.std.specs.Prelude.{◌≡◌, ◌+◌, ◌≤◌, length};
ghost use Rattle.std.proofs.Math.Seq.{paste};
ghost use Rattle.table.specs.Inner.{FitsAt};
ghost use Rattle.rules.specs.Limits.{WordForEach};
ghost use Rattle.rules.specs.Answers.{Tested};

use rules::kinds::Place;

// Whether there are r rows, and slices of those lengths have the place.
pub(crate) fn fits(
    r: usize,
    place: Place,
    rows: usize,
    codes: usize,
    lefts: usize,
    rights: usize,
    sizes: usize,
    matrices: usize,
) -> bool
    ensures { Tested (FitsAt r place.0 rows codes lefts rights sizes matrices) result }
{
    let at = place.0 as usize;
    r <= rules::SESSIONS
        && r <= rows
        && at < codes
        && at < lefts
        && at < rights
        && at < sizes
        && at * r + r <= matrices
}

// Writes the rows from `from` on.
pub(crate) fn put(r: usize, matrices: &mut [u64], rows: &[u64], from: usize)
    requires { WordForEach r rows.now × (from + r ≤ length matrices.old) }
    ensures { matrices.new ≡ paste matrices.old from rows.now r }
{
    matrices[from..from + r].copy_from_slice(&rows[..r]);
}
