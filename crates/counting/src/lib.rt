// The counts of a walk, one candidate further, by what became of it.
#![tactic(auto)]

ghost use Rattle.std.specs.Prelude.{◌≡◌};
ghost use Rattle.counting.specs.Counting.{counted_by};

// What becomes of a candidate.
#[derive(Clone, Copy)]
pub enum Fate {
    Found,
    Dropped,
    Full,
    Kept,
}

// The counts of a search: the candidates tried, up to and including the deciding one, the formulas kept, and the candidates dropped.
#[derive(Clone, Copy)]
pub struct Counts {
    pub tried: u64,
    pub kept: usize,
    pub dropped: u64,
}

// The counts after a candidate: one more is tried, and one more dropped or kept by what became of it. A count that has reached the largest number of its word
// stays.
pub fn count(fate: Fate, before: Counts) -> Counts
    ensures { result ≡ counted_by fate before }
{
    let tried = before.tried.saturating_add(1);
    match fate {
        Fate::Found | Fate::Full => Counts { tried, ..before },
        Fate::Dropped => Counts {
            tried,
            dropped: before.dropped.saturating_add(1),
            ..before
        },
        Fate::Kept => Counts {
            tried,
            kept: before.kept.saturating_add(1),
            ..before
        },
    }
}
