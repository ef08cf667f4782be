// The leaves over the rows of a matrix, a loop for each. Every function writes all r rows or none.
#![tactic(auto)]

ghost use Rattle.leaves.specs.Leaves.{PropositionOver, FalseOver, TrueOver};

use rules::kinds::Proposition;

// A proposition's words, which lie m per session.
pub fn proposition_rows(r: usize, m: usize, words: &[u64], p: Proposition, rows: &mut [u64])
    ensures { PropositionOver r m words.now p.0 rows.old rows.new }
{
    let p = p.0 as usize;
    if rules::SESSIONS < r {
        return;
    }
    if rules::PROPOSITIONS < m {
        return;
    }
    if m <= p {
        return;
    }
    if words.len() < m * r {
        return;
    }
    if rows.len() < r {
        return;
    }
    for j in 0..r {
        rows[j] = words[j * m + p];
    }
}

pub fn false_rows(r: usize, rows: &mut [u64])
    ensures { FalseOver r rows.old rows.new }
{
    if rows.len() < r {
        return;
    }
    rows[..r].fill(0);
}

pub fn true_rows(r: usize, masks: &[u64], rows: &mut [u64])
    ensures { TrueOver r masks.now rows.old rows.new }
{
    if masks.len() < r {
        return;
    }
    if rows.len() < r {
        return;
    }
    for j in 0..r {
        rows[j] = words::places(masks[j]);
    }
}
