// The leaf that a word is: a constant, or a name by its number.
ghost use Rattle.std.specs.Prelude.{◌+◌, ◌≤◌, length};
ghost use Rattle.names.specs.Names.{GoodNames};
ghost use Rattle.descent.specs.Inner.{WordIs, LeafIs};

use formula::kinds::{FALSE, PROPOSITION, TRUE};
use names::lookup::find;
use spelling::bytes::same;

// A leaf's code, and its left field: a proposition's number.
#[derive(Clone, Copy)]
pub(crate) struct Leaf {
    pub(crate) code: u8,
    pub(crate) left: usize,
}

fn word_leaf(names: &[u8], word: &[u8]) -> Leaf
    requires { GoodNames names.now }
    ensures { WordIs names.now word.now result }
{
    if same(word, b"true") {
        return Leaf {
            code: TRUE,
            left: 0,
        };
    }
    if same(word, b"false") {
        return Leaf {
            code: FALSE,
            left: 0,
        };
    }
    Leaf {
        code: PROPOSITION,
        left: find(names, word).unwrap_or(0),
    }
}

// The leaf that n bytes of the text are, where they are one.
pub(crate) fn leaf_of(names: &[u8], text: &[u8], start: usize, n: usize) -> Leaf
    requires { GoodNames names.now × (start + n ≤ length text.now) }
    ensures { LeafIs names.now text.now start n result }
{
    let end = start + n;
    word_leaf(names, &text[start..end])
}
