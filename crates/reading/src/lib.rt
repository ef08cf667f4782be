// Reading lent bytes: what a sub-reader hands up, and the byte at an offset within its numbers.
#![tactic(auto)]

ghost use Rattle.std.specs.Prelude.{◌≡◌};
ghost use Rattle.reading.specs.Reading.{byte, within, step_of};

// The offset that offends: of a byte, of a name's or a word's first byte, or the file's length where the file ends too early.
#[derive(Clone, Copy, Debug, PartialEq, Eq)]
pub struct Broken(pub usize);

// What a sub-reader hands up of what it read: a number, and the offset after it.
#[derive(Clone, Copy, Debug, PartialEq, Eq)]
pub struct Read {
    pub value: usize,
    pub next: usize,
}

// The byte at an offset, from lo to hi.
pub fn byte_within(file: &[u8], at: usize, lo: usize, hi: usize) -> Result<Read, Broken>
    ensures { result ≡ step_of (λ b. b) (byte (within lo hi) file.now at) }
{
    if file.len() <= at {
        return Err(Broken(file.len()));
    }
    let value = file[at] as usize;
    if value < lo || hi < value {
        return Err(Broken(at));
    }
    Ok(Read {
        value,
        next: at + 1,
    })
}
