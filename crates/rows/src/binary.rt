// A candidate whose code is a binary operator's: where the rows of its children lie.
ghost use Rattle.formula.specs.Rule.{IsBinary};
ghost use Rattle.rows.specs.Inner.{BinaryRowsAnswer};
ghost use Rattle.rules.specs.Limits.{WordForEach};

use rules::kinds::Place;

// The rows of a candidate whose code is a binary operator's.
pub(crate) fn rows_of(
    r: usize,
    masks: &[u64],
    matrices: &[u64],
    code: u8,
    left: Place,
    right: Place,
    rows: &mut [u64],
) -> bool
    requires { WordForEach r masks.now × WordForEach r rows.old × IsBinary code }
    ensures { BinaryRowsAnswer r masks.now matrices.now code left.0 right.0 rows.old rows.new result }
{
    let one = left.0 as usize * r;
    if matrices.len() < one + r {
        return false;
    }
    let other = right.0 as usize * r;
    if matrices.len() < other + r {
        return false;
    }
    loops::binary::by_code(r, masks, &matrices[one..], &matrices[other..], code, rows);
    true
}
