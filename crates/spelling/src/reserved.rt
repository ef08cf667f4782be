// The words that no name may be (document 02, E1): a constant table, and whether a name is one of them.
ghost use Rattle.std.specs.Prelude.{◌≡◌};
ghost use Rattle.reading.specs.Reading.{is_in};
ghost use Rattle.spelling.specs.Reserved.{reserved};
ghost use Rattle.spelling.specs.Spelling.{same_bytes};

use crate::bytes::same;

const WORDS: [&[u8]; 7] = [b"U", b"R", b"X", b"F", b"G", b"true", b"false"];

// Whether these bytes are a reserved word.
#[inline]
pub fn is_reserved(name: &[u8]) -> bool
    ensures { result ≡ is_in same_bytes name.now reserved }
{
    // Not `contains`: on a table of slices it is a call for each search, with which reading a text of short names took a quarter more time.
    WORDS.iter().any(|word| same(name, word))
}
