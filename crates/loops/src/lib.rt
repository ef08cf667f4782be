// The operators over the rows of matrices (cm.rs): the operator is chosen once for a candidate, and each has a loop of its own, which can be vectorised.
#![tactic(auto)]

pub mod binary;
pub mod unary;

ghost use Rattle.std.specs.Prelude.{ℕ, ◌<◌};
ghost use Rattle.loops.specs.Loops.{Long, Filled};

// The first r rows by a word for each session. What is handed in is a type parameter, so each operator is compiled to a loop of its own.
fn fill<F: Fn(usize) -> u64>(r: usize, rows: &mut [u64], word: F)
    requires long { Long r rows.old }
    requires calls { (j : ℕ) → j < r → F.pre word j }
    ensures { Filled r rows.old (F.post word) rows.new }
{
    for j in 0..r {
        rows[j] = word(j);
    }
}
