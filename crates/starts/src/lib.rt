// Where each size begins in the table of kept formulas, from its column of sizes.
#![tactic(auto)]

ghost use Rattle.std.specs.Prelude.{◌≡◌, ◌^◌, ◌<◌, length};
ghost use Rattle.starts.specs.Starts.{starts_of};
ghost use Rattle.starts.specs.Inner.{SizesCounted};

// At t stands the number of kept formulas of size below t, for t from 0 to BOUND + 1: those of size t are the places from the one at t to the one at t + 1.
pub const COUNT: usize = rules::BOUND + 2;

// How many of the sizes are one below each position; a size above every formula's is not counted.
fn counts(sizes: &[u8]) -> [u16; COUNT]
    requires { length sizes.now < 2 ^ 16 }
    ensures { SizesCounted sizes.now result }
{
    let mut counts = [0u16; COUNT];
    for size in sizes {
        let t = *size as usize;
        if t < COUNT - 1 {
            counts[t + 1] += 1;
        }
    }
    counts
}

// For each t the number of formulas of size below t among the first `kept`; where `kept` is more than there are, among all.
pub fn of_table(sizes: &[u8], kept: u16) -> [u16; COUNT]
    ensures { result ≡ starts_of sizes.now kept }
{
    let there = sizes.len().min(kept as usize);
    let mut starts = counts(&sizes[..there]);
    let mut below = 0;
    for start in starts.iter_mut() {
        below += *start;
        *start = below;
    }
    starts
}
