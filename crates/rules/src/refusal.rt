// The refusals of document 01's table and of the requests, and their numbers. Those that say where a text is broken (8, 11 and 13) stand with what reads it.

// Why an operation refuses; each kind has a number, by which the C boundary answers.
#[derive(Clone, Copy, Debug, PartialEq, Eq)]
pub enum Refusal {
    /// 1: r or m outside its numbers
    Numbers,
    /// 2: B, C, the constants mark or a budget wrong
    Settings,
    /// 3: too little room lent
    Room,
    /// 4: a length above 64
    Length,
    /// 5: a bit set at or above the length
    Bit,
    /// 6: a mark other than 0 or 1
    Mark,
    /// 7: a code not in its group, or repeated
    Code,
    /// 9: node list broken
    Nodes,
    /// 10: two sequences of unequal length
    Unequal,
    /// 12: a text or a formula that is too large
    Large,
    /// 14: a state that no search has
    State,
}

impl From<Refusal> for u8 {
    ghost use Rattle.std.specs.Prelude.{◌≡◌};
    ghost use Rattle.rules.specs.Refusals.{refusal_number};

    ghost from_gives = { λ refusal number. number ≡ refusal_number refusal };

    fn from(refusal: Refusal) -> u8 {
        match refusal {
            Refusal::Numbers => 1,
            Refusal::Settings => 2,
            Refusal::Room => 3,
            Refusal::Length => 4,
            Refusal::Bit => 5,
            Refusal::Mark => 6,
            Refusal::Code => 7,
            Refusal::Nodes => 9,
            Refusal::Unequal => 10,
            Refusal::Large => 12,
            Refusal::State => 14,
        }
    }
}
