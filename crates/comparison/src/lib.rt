// A matrix against the kept ones in a lent slice (cm.rs, cache.rs): against the one at a place, and against all of them from the first on.
// Every function tests the numbers that it is handed, once, and says so where they are out of range; the loops behind it are private.
#![tactic(auto)]

mod comparing;

ghost use Rattle.comparison.specs.Compare.{said_compared, Compares, KnownAnswer};

use rules::kinds::{Place, Session};
use rules::refusal::Refusal;

// How a matrix compares with the kept one at a place: equal in every row, there; or the first session that differs.
#[derive(Clone, Copy)]
pub enum Compared {
    Equal(Place),
    Differs(Session),
}

// A matrix, the first r of the words, against the kept one at a place of the lent matrices.
pub fn compare(r: usize, place: Place, matrices: &[u64], words: &[u64]) -> Result<Compared, Refusal>
    ensures { Compares r place.0 matrices.now words.now (said_compared result) }
{
    if r < 1 {
        return Err(Refusal::Numbers);
    }
    if rules::SESSIONS < r {
        return Err(Refusal::Numbers);
    }
    if words.len() < r {
        return Err(Refusal::Room);
    }
    let from = place.0 as usize * r;
    if matrices.len() < from + r {
        return Err(Refusal::Room);
    }
    Ok(comparing::compare_at(r, place, &matrices[from..], words))
}

// A matrix against the kept ones, from the first on (what the hash of cm.rs stands for): the first place whose matrix is equal.
// None too where there are not so many.
pub fn known_at(r: usize, matrices: &[u64], rows: &[u64], kept: usize) -> Option<Place>
    ensures { KnownAnswer r matrices.now rows.now kept result }
{
    if rules::SESSIONS < r {
        return None;
    }
    if rules::ROOM < kept {
        return None;
    }
    if rows.len() < r {
        return None;
    }
    if matrices.len() < kept * r {
        return None;
    }
    comparing::first_equal(r, matrices, rows, kept)
}
