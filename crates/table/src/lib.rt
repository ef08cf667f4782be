// The table of a search in lent slices (cm.rs, cache.rs): a matrix's acceptance against the marks, and keeping it.
// Every function tests the numbers that it is handed, once, and says so where they are out of range; the loops behind it are private.
#![tactic(auto)]

mod store;
mod tests;

ghost use Rattle.std.specs.Prelude.{◌≡◌};
ghost use Rattle.formula.specs.Kinds.{node_of};
ghost use Rattle.table.specs.Slices.{cols};
ghost use Rattle.table.specs.Acceptance.{agreeing};
ghost use Rattle.table.specs.Keep.{KeepAnswer};

use formula::kinds::Node;
use rules::kinds::Place;

// Whether exactly the sessions marked 1 accept (is_equivalent in cm.rs). False where r is above the most sessions or a slice is shorter.
#[tactic(auto, unfolding(crate::specs::Acceptance::agreeing))]
pub fn agrees(r: usize, marks: &[u8], rows: &[u64]) -> bool
    ensures { result ≡ agreeing r marks.now rows.now }
{
    r <= rules::SESSIONS && r <= marks.len() && r <= rows.len() && tests::all_agree(r, marks, rows)
}

// Writes a formula at a place: its node and its matrix. False where a slice has no such place.
pub fn keep(
    r: usize,
    rows: &[u64],
    place: Place,
    node: Node,
    codes: &mut [u8],
    lefts: &mut [u16],
    rights: &mut [u16],
    sizes: &mut [u8],
    matrices: &mut [u64],
) -> bool
    ensures { KeepAnswer r rows.now place.0 (node_of node)
        (cols codes.old lefts.old rights.old sizes.old matrices.old)
        (cols codes.new lefts.new rights.new sizes.new matrices.new) result }
{
    if store::fits(
        r,
        place,
        rows.len(),
        codes.len(),
        lefts.len(),
        rights.len(),
        sizes.len(),
        matrices.len(),
    ) {
        let at = place.0 as usize;
        codes[at] = node.code;
        lefts[at] = node.left.0;
        rights[at] = node.right.0;
        sizes[at] = node.size;
        store::put(r, matrices, rows, at * r);
        return true;
    }
    false
}
