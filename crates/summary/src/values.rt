// What the report says of a sequence: the first snapshot where it holds, the first where it doesn't, and at how many it holds.
ghost use Rattle.std.specs.Prelude.{◌^◌, ◌<◌, min};
ghost use Rattle.words.specs.Word.{width, At};
ghost use Rattle.summary.specs.Values.{LeastIn, Summed};

use sequence::CharSeq;

// The first snapshot where it holds and the first where it doesn't, where there is one, and at how many it holds.
#[derive(Clone, Copy)]
pub struct Summary {
    pub holds: Option<u8>,
    pub fails: Option<u8>,
    pub count: u8,
}

// The lowest place of a word that is set.
fn lowest(x: u64) -> Option<u8>
    ensures { LeastIn width (At x) result }
{
    if x == 0 {
        return None;
    }
    let p = u64::trailing_zeros(x) as u8;
    Some(p)
}

// Only the sequence's own snapshots are looked at: bits at or above its length, and the empty session's bit, count for nothing.
pub fn summary_of(seq: CharSeq) -> Summary
    ensures { Summed (min seq.length width) (At seq.values) result }
{
    let mask = CharSeq::mask(seq.length);
    let word = seq.values;
    let set = word & mask;
    let clear = !word & mask;
    let holds = lowest(set);
    let fails = lowest(clear);
    let count = u64::count_ones(set) as u8;
    Summary {
        holds,
        fails,
        count,
    }
}
