// The operators of cs.rs on bare words. A word has no length to get wrong, so nothing here refuses: the operators that have to know where a
// session ends are handed the mask of its snapshots. Each contract is a reading at all 64 positions, for any words and any mask. A formula's word has
// the first place whatever the mask, so that `!`, `->`, `<->`, `X`, `G` and `R` reach it on an empty one; `F` and `U` look at snapshots alone.
#![tactic(auto)]

ghost use Rattle.words.specs.Ltlf.{Or, And, StrongNext};
ghost use Rattle.words.specs.Masked.{PlacesOn, NotOn, ImpliesOn, EquivOn, WeakNextOn, FinallyOn, GloballyOn, UntilOn, ReleaseOn};
ghost use Rattle.words.specs.Word.{width, At, Means};

pub fn or(x: u64, y: u64) -> u64
    ensures { Means width result (Or (At x) (At y)) }
{
    x | y
}

pub fn and(x: u64, y: u64) -> u64
    ensures { Means width result (And (At x) (At y)) }
{
    x & y
}

// The places of a formula's word over the snapshots of a mask.
pub fn places(mask: u64) -> u64
    ensures { Means width result (PlacesOn (At mask)) }
{
    mask | 1
}

pub fn not(x: u64, mask: u64) -> u64
    ensures { Means width result (NotOn (At mask) (At x)) }
{
    !x & places(mask)
}

pub fn implies(x: u64, y: u64, mask: u64) -> u64
    ensures { Means width result (ImpliesOn (At mask) (At x) (At y)) }
{
    (!x | y) & places(mask)
}

pub fn equiv(x: u64, y: u64, mask: u64) -> u64
    ensures { Means width result (EquivOn (At mask) (At x) (At y)) }
{
    !(x ^ y) & places(mask)
}

pub fn strong_next(x: u64) -> u64
    ensures { Means width result (StrongNext width (At x)) }
{
    x >> 1
}

// Where the mask goes on at the next place, x has to hold there. So no bit is built by a shift of the length less one.
pub fn weak_next(x: u64, mask: u64) -> u64
    ensures { Means width result (WeakNextOn (At mask) (At x)) }
{
    (!(mask >> 1) | (x >> 1)) & places(mask)
}

pub fn finally(x: u64, mask: u64) -> u64
    ensures { Means width result (FinallyOn (At mask) (At x)) }
{
    let mut x = x & mask;
    x |= x >> 1;
    x |= x >> 2;
    x |= x >> 4;
    x |= x >> 8;
    x |= x >> 16;
    x |= x >> 32;
    x
}

pub fn globally(x: u64, mask: u64) -> u64
    ensures { Means width result (GloballyOn (At mask) (At x)) }
{
    not(finally(not(x, mask), mask), mask)
}

// y has what is reached within d places, and x the runs that are d long. Where no run is left, further doublings would change nothing.
pub fn until(x: u64, y: u64, mask: u64) -> u64
    ensures { Means width result (UntilOn (At mask) (At x) (At y)) }
{
    let mut x = x;
    let mut y = y & mask;
    let mut d: u64 = 1;
    // A while: the distance doubles, so it counts no index that a range could give.
    while d < 64 {
        if x == 0 {
            return y;
        }
        y |= x & (y >> d);
        x &= x >> d;
        d += d;
    }
    y
}

pub fn release(x: u64, y: u64, mask: u64) -> u64
    ensures { Means width result (ReleaseOn (At mask) (At x) (At y)) }
{
    not(until(not(x, mask), not(y, mask), mask), mask)
}
