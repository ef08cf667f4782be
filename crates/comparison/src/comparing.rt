// The comparison of two matrices, and the loop over the kept ones.
ghost use Rattle.std.specs.Prelude.{◌≤◌, length};
ghost use Rattle.rules.specs.Limits.{most_sessions};
ghost use Rattle.comparison.specs.Compare.{KnownAsk, KnownAnswer};
ghost use Rattle.comparison.specs.Inner.{ComparedAt};

use crate::Compared;
use rules::kinds::{Place, Session};

// A matrix against x, the kept one at the place, row by row up to the first that differs.
pub(crate) fn compare_at(r: usize, place: Place, x: &[u64], rows: &[u64]) -> Compared
    requires { (r ≤ most_sessions) × (r ≤ length x.now) × (r ≤ length rows.now) }
    ensures { ComparedAt r place.0 x.now rows.now result }
{
    // Most matrices differ in the first row already: looked at by itself, it keeps a search out of the loop.
    if 0 < r && rows[0] != x[0] {
        return Compared::Differs(Session(0));
    }
    match (0..r).position(|j| rows[j] != x[j]) {
        Some(j) => Compared::Differs(Session(j as u8)),
        None => Compared::Equal(place),
    }
}

// The first place whose matrix is equal, or none.
pub(crate) fn first_equal(r: usize, matrices: &[u64], rows: &[u64], kept: usize) -> Option<Place>
    requires { KnownAsk r matrices.now rows.now kept }
    ensures { KnownAnswer r matrices.now rows.now kept result }
{
    // The place of the matrix runs on: as `p * r` it was multiplied out for each kept formula, in the innermost loop of a search.
    let mut from: usize = 0;
    for p in 0..kept {
        let compared = compare_at(r, Place(p as u16), &matrices[from..], rows);
        if let Compared::Equal(place) = compared {
            return Some(place);
        }
        from += r;
    }
    None
}
