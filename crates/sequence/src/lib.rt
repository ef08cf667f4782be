// Characteristic sequences (cs.rs), and the operators as their methods.
#![tactic(auto)]

ghost use Rattle.std.specs.Prelude.{◌≡◌, ◌↔◌, true, ◌<◌};
ghost use Rattle.words.specs.Word.{width, Wf, places, Means};
ghost use Rattle.rules.specs.Refusals.{Decided, number_of};
ghost use Rattle.sequence.specs.Operators.{not, weak_next, strong_next, finally, globally, or, and, until, release, implies, equiv};
ghost use Rattle.sequence.specs.Masked.{UnaryOn, BinaryOn, UnaryBy, BinaryBy};
ghost use Rattle.sequence.specs.Sequence.{seq, WellFormed, SeqAccepts, ill_formed, NewAnswer, RecordedAnswer};

use rules::refusal::Refusal;

#[derive(Clone, Copy)]
pub struct CharSeq {
    pub length: usize,
    pub values: u64,
}

impl CharSeq {
    // "The smallest length, the largest length and the full mask belong to the sequence type as its constants."
    pub const MIN_LENGTH: usize = 0;

    pub const MAX_LENGTH: usize = 64;

    pub const FULL_MASK: u64 = 0xffff_ffff_ffff_ffff;

    // The sequence of that length and word, or a refusal.
    pub fn new(length: usize, values: u64) -> Result<CharSeq, Refusal>
        ensures { NewAnswer length values result }
    {
        let seq = CharSeq { length, values };
        seq.check()?;
        Ok(seq)
    }

    // The same of a word that was recorded: it has a bit for each snapshot and no other, so at length 0 it is 0.
    pub fn recorded(length: usize, values: u64) -> Result<CharSeq, Refusal>
        ensures { RecordedAnswer length values result }
    {
        if length > Self::MAX_LENGTH {
            return Err(Refusal::Length);
        }
        if Self::is_clear(values, length) {
            Ok(CharSeq { length, values })
        } else {
            Err(Refusal::Bit)
        }
    }

    // The places of a formula's word: one for each snapshot, and the first at every length.
    pub fn places(length: usize) -> usize
        ensures { result ≡ places length }
    {
        if length > Self::MIN_LENGTH { length } else { 1 }
    }

    // The leading zeros reach down to n: no bit at or above it is set.
    fn is_clear(values: u64, n: usize) -> bool
        ensures { (result ≡ true) ↔ Wf n values }
    {
        n <= Self::MAX_LENGTH && u64::leading_zeros(values) as usize >= Self::MAX_LENGTH - n
    }

    pub fn is_well_formed(self) -> bool
        ensures { (result ≡ true) ↔ WellFormed self }
    {
        Self::is_clear(self.values, Self::places(self.length))
    }

    // What refuses the sequence, if anything does.
    pub fn check(self) -> Result<(), Refusal>
        ensures { Decided (ill_formed self) (number_of result) }
    {
        if self.length > Self::MAX_LENGTH {
            return Err(Refusal::Length);
        }
        if self.is_well_formed() {
            Ok(())
        } else {
            Err(Refusal::Bit)
        }
    }

    // Whether the formula holds at 0. At length 0 that is its reading on the empty trace.
    pub fn accepts(self) -> bool
        ensures { (result ≡ true) ↔ SeqAccepts self }
    {
        self.values & 1 == 1
    }

    // The word whose `length` low bits are set. A shift by 64 is none, so the full mask is a constant.
    pub fn mask(length: usize) -> u64
        ensures { Means width result (λ i. i < length) }
    {
        if length < Self::MAX_LENGTH {
            (1 << length) - 1
        } else {
            Self::FULL_MASK
        }
    }

    // The eleven operators (cs.rs), over the snapshots below the sequence's own length. They refuse nothing: `apply_unary` and `apply_binary` of operators do.

    // `!`
    pub fn not(self) -> CharSeq
        ensures { UnaryOn not self result }
    {
        CharSeq {
            length: self.length,
            values: words::not(self.values, Self::mask(self.length)),
        }
    }

    // `X`
    pub fn weak_next(self) -> CharSeq
        ensures { UnaryOn weak_next self result }
    {
        CharSeq {
            length: self.length,
            values: words::weak_next(self.values, Self::mask(self.length)),
        }
    }

    // `X[!]`
    pub fn strong_next(self) -> CharSeq
        ensures { UnaryOn strong_next self result }
    {
        CharSeq {
            length: self.length,
            values: words::strong_next(self.values),
        }
    }

    // `F`
    pub fn finally(self) -> CharSeq
        ensures { UnaryOn finally self result }
    {
        CharSeq {
            length: self.length,
            values: words::finally(self.values, Self::mask(self.length)),
        }
    }

    // `G`
    pub fn globally(self) -> CharSeq
        ensures { UnaryOn globally self result }
    {
        CharSeq {
            length: self.length,
            values: words::globally(self.values, Self::mask(self.length)),
        }
    }

    // `|`
    pub fn or(self, right: CharSeq) -> CharSeq
        ensures { BinaryOn or self right result }
    {
        CharSeq {
            length: self.length,
            values: words::or(self.values, right.values),
        }
    }

    // `&`
    pub fn and(self, right: CharSeq) -> CharSeq
        ensures { BinaryOn and self right result }
    {
        CharSeq {
            length: self.length,
            values: words::and(self.values, right.values),
        }
    }

    // `U`
    pub fn until(self, right: CharSeq) -> CharSeq
        ensures { BinaryOn until self right result }
    {
        CharSeq {
            length: self.length,
            values: words::until(self.values, right.values, Self::mask(self.length)),
        }
    }

    // `R`
    pub fn release(self, right: CharSeq) -> CharSeq
        ensures { BinaryOn release self right result }
    {
        CharSeq {
            length: self.length,
            values: words::release(self.values, right.values, Self::mask(self.length)),
        }
    }

    // `->`
    pub fn implies(self, right: CharSeq) -> CharSeq
        ensures { BinaryOn implies self right result }
    {
        CharSeq {
            length: self.length,
            values: words::implies(self.values, right.values, Self::mask(self.length)),
        }
    }

    // `<->`
    pub fn equiv(self, right: CharSeq) -> CharSeq
        ensures { BinaryOn equiv self right result }
    {
        CharSeq {
            length: self.length,
            values: words::equiv(self.values, right.values, Self::mask(self.length)),
        }
    }

    // A code of no operator of the group gives a sequence that holds nowhere.
    fn nowhere(self) -> CharSeq
        ensures { result ≡ seq self.length 0 }
    {
        CharSeq {
            length: self.length,
            values: 0,
        }
    }

    // The unary operator of a code.
    pub fn unary(self, code: u8) -> CharSeq
        ensures { UnaryBy code self result }
    {
        match code {
            0 => self.not(),
            1 => self.weak_next(),
            2 => self.strong_next(),
            3 => self.finally(),
            4 => self.globally(),
            _ => self.nowhere(),
        }
    }

    // The binary operator of a code.
    pub fn binary(self, code: u8, right: CharSeq) -> CharSeq
        ensures { BinaryBy code self right result }
    {
        match code {
            5 => self.or(right),
            6 => self.and(right),
            7 => self.until(right),
            8 => self.release(right),
            9 => self.implies(right),
            10 => self.equiv(right),
            _ => self.nowhere(),
        }
    }
}
