// The bytes of a name: letters, digits or `_`, a letter first.
ghost use Rattle.std.specs.Prelude.{◌≡◌, [], length};
ghost use Rattle.reading.specs.Reading.{each_item, byte, step_of};
ghost use Rattle.names.specs.Names.{letter};
ghost use Rattle.names.specs.Inner.{fits_at};

use reading::{Broken, Read};
use spelling::letter::{is_letter, is_name_byte};

// Whether a byte may be the byte number i of a name.
fn fits_name(i: usize, b: u8) -> bool
    ensures { result ≡ fits_at i b }
{
    if i == 0 {
        is_letter(b)
    } else {
        is_name_byte(b)
    }
}

// The byte at an offset as the byte number i of a name.
fn letter_at(file: &[u8], at: usize, i: usize) -> Result<Read, Broken>
    ensures { result ≡ step_of (λ b. b) (byte (fits_at i) file.now at) }
{
    if file.len() <= at {
        return Err(Broken(file.len()));
    }
    let b = file[at];
    if !fits_name(i, b) {
        return Err(Broken(at));
    }
    Ok(Read {
        value: b as usize,
        next: at + 1,
    })
}

// n bytes of a name.
pub(crate) fn letters_from(file: &[u8], at: usize, n: usize) -> Result<Read, Broken>
    ensures { result ≡ step_of length (each_item letter n [] file.now at) }
{
    // A `for`, and no `try_fold`: a closure would only hand on the offset that is in `p` here.
    let mut p = at;
    for i in 0..n {
        p = letter_at(file, p, i)?.next;
    }
    Ok(Read { value: n, next: p })
}
