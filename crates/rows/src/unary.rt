// A candidate whose code is a unary operator's: where the rows of its child lie.
ghost use Rattle.formula.specs.Rule.{IsUnary};
ghost use Rattle.rows.specs.Inner.{UnaryRowsAnswer};
ghost use Rattle.rules.specs.Limits.{WordForEach};

use rules::kinds::Place;

// The rows of a candidate whose code is a unary operator's.
pub(crate) fn rows_of(
    r: usize,
    masks: &[u64],
    matrices: &[u64],
    code: u8,
    left: Place,
    rows: &mut [u64],
) -> bool
    requires { WordForEach r masks.now × WordForEach r rows.old × IsUnary code }
    ensures { UnaryRowsAnswer r masks.now matrices.now code left.0 rows.old rows.new result }
{
    let from = left.0 as usize * r;
    if matrices.len() < from + r {
        return false;
    }
    loops::unary::by_code(r, masks, &matrices[from..], code, rows);
    true
}
