// The masks of the sessions: of each session a word with a bit for each of its snapshots.
#![tactic(auto)]

ghost use Rattle.masks.specs.Masks.{MasksAnswer};

use sequence::CharSeq;

// Writes the masks of r sessions, once for a search. False where r is above the most sessions or a slice is shorter.
pub fn masks_of(r: usize, lengths: &[u8], masks: &mut [u64]) -> bool
    ensures { MasksAnswer r lengths.now masks.old masks.new result }
{
    if rules::SESSIONS < r {
        return false;
    }
    if lengths.len() < r {
        return false;
    }
    if masks.len() < r {
        return false;
    }
    for j in 0..r {
        masks[j] = CharSeq::mask(lengths[j] as usize);
    }
    true
}
