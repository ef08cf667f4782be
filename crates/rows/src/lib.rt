// A candidate's matrix (cm.rs): its r rows, over those of its children in a lent slice. The function tests the numbers that it is handed, once for a
// candidate, and says so where they are out of range; the loops behind it are those of `loops` and `leaves`.
#![tactic(auto)]

mod binary;
mod leaf;
mod unary;

ghost use Rattle.rows.specs.Rows.{RowsAnswer};

use operators::{Group, operator_of};
use rules::kinds::Place;

// Writes the matrix of the candidate with that code, left and right field: the operator's words over those of its children, which are kept, or a
// leaf's. False where the code is no operator's and no leaf's, or what it reads isn't there.
pub fn rows_of(
    r: usize,
    m: usize,
    masks: &[u64],
    words: &[u64],
    matrices: &[u64],
    code: u8,
    left: Place,
    right: Place,
    rows: &mut [u64],
) -> bool
    ensures { RowsAnswer r m masks.now words.now matrices.now code left.0 right.0 rows.old rows.new result }
{
    if rules::SESSIONS < r {
        return false;
    }
    if masks.len() < r {
        return false;
    }
    if rows.len() < r {
        return false;
    }
    let group = operator_of(code).group;
    match group {
        Group::Unary => unary::rows_of(r, masks, matrices, code, left, rows),
        Group::Binary => binary::rows_of(r, masks, matrices, code, left, right, rows),
        Group::Neither => leaf::rows_of(r, m, masks, words, code, left, rows),
    }
}
