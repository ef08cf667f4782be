// How deep the brackets of a text nest.
ghost use Rattle.typed.specs.Answers.{DeepIs};
ghost use Rattle.typed.specs.Inner.{One};

const MOST_BRACKETS: usize = 64;

// 1 for a byte that is this one.
fn one(b: u8, this: u8) -> usize
    ensures { One b this result }
{
    usize::from(b == this)
}

// Whether more than 64 brackets are open somewhere.
pub fn deep(text: &[u8]) -> bool
    ensures { DeepIs text.now result }
{
    let mut opened: usize = 0;
    let mut closed: usize = 0;
    for &b in text {
        opened += one(b, b'(');
        closed += one(b, b')');
        if MOST_BRACKETS + closed < opened {
            return true;
        }
    }
    false
}
