// A candidate whose code is no operator's: which leaf it is, and whether what it reads is there.
ghost use Rattle.formula.specs.Rule.{IsUnary, IsBinary};
ghost use Rattle.rules.specs.Limits.{WordForEach};
ghost use Rattle.rows.specs.Inner.{LeafAnswer};

use formula::kinds::{FALSE, PROPOSITION, TRUE};
use rules::kinds::{Place, Proposition};

// The rows of a candidate whose code is no operator's.
pub(crate) fn rows_of(
    r: usize,
    m: usize,
    masks: &[u64],
    words: &[u64],
    code: u8,
    left: Place,
    rows: &mut [u64],
) -> bool
    requires { WordForEach r masks.now × WordForEach r rows.old × (IsUnary code → ⊥) × (IsBinary code → ⊥) }
    ensures { LeafAnswer r m masks.now words.now code left.0 rows.old rows.new result }
{
    if code == PROPOSITION {
        if rules::PROPOSITIONS < m {
            return false;
        }
        if m <= left.0 as usize {
            return false;
        }
        if words.len() < m * r {
            return false;
        }
        let p = Proposition::from_left(left);
        leaves::proposition_rows(r, m, words, p, rows);
        return true;
    }
    if code == FALSE {
        leaves::false_rows(r, rows);
        return true;
    }
    if code == TRUE {
        leaves::true_rows(r, masks, rows);
        return true;
    }
    false
}
