// One candidate of the walk over a table in lent slices (aux.rs, cache.rs): its rows, then FOUND, the comparison with what is kept, FULL, kept.
#![tactic(auto)]

ghost use Rattle.table.specs.Slices.{cols};
ghost use Rattle.candidate.specs.Judge.{Judged};
ghost use Rattle.candidate.specs.Inner.{NoPlace};

use counting::Fate;
use formula::kinds::Node;
use rules::kinds::Place;

// Whether there is no place for one more: as many are kept as the room has, or as any table may have.
fn no_place(room: usize, kept: usize) -> bool
    ensures { NoPlace room kept result }
{
    room <= kept || rules::ROOM <= kept
}

// What becomes of the candidate `node` over the `kept` formulas of the table: its rows are made in `rows`, and where it is kept it is written at the next
// place. Of each slice it looks at what the numbers r, m, room and kept say; where that isn't there, it writes nothing.
pub fn judge(
    r: usize,
    m: usize,
    room: usize,
    marks: &[u8],
    words: &[u64],
    masks: &[u64],
    node: Node,
    kept: usize,
    rows: &mut [u64],
    codes: &mut [u8],
    lefts: &mut [u16],
    rights: &mut [u16],
    sizes: &mut [u8],
    matrices: &mut [u64],
) -> Fate
    ensures { Judged r m room marks.now words.now masks.now node kept rows.old rows.new
        (cols codes.old lefts.old rights.old sizes.old matrices.old)
        (cols codes.new lefts.new rights.new sizes.new matrices.new) result }
{
    rows::rows_of(
        r, m, masks, words, matrices, node.code, node.left, node.right, rows,
    );
    if table::agrees(r, marks, rows) {
        return Fate::Found;
    }
    if comparison::known_at(r, matrices, rows, kept).is_some() {
        return Fate::Dropped;
    }
    if no_place(room, kept) {
        return Fate::Full;
    }
    table::keep(
        r,
        rows,
        Place(kept as u16),
        node,
        codes,
        lefts,
        rights,
        sizes,
        matrices,
    );
    Fate::Kept
}
