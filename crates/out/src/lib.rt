// What the functions of the C boundary have in common: how many words `out` has to have, and the number returned for a refusal with an offset.
#![tactic(auto)]

ghost use Rattle.std.specs.Prelude.{◌≡◌};
ghost use Rattle.out.specs.Out.{refused_at};

// The words that `out` has to have; at the search more.
pub const OUT_WORDS: usize = 8;

pub const LONG_WORDS: usize = 16;

// A refusal's number with its offset. No offset of ours needs more than 32 bits, and so no sum wraps.
pub fn refused_at(number: u8, offset: u32) -> u64
    ensures { result ≡ refused_at number offset }
{
    (number as u64) + 256 * (offset as u64)
}
