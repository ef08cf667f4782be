// Writing into lent text: bytes, and numbers in decimal. Each function writes from a place on, as much as there is room for, and answers the place after
// what it wrote; so a caller that has the room gets the whole, and one that hasn't loses only what doesn't fit.
#![tactic(auto)]

ghost use Rattle.std.specs.Prelude.{[], ◌∷◌, ◌+◌, ◌≤◌, ◌<◌, length};
ghost use Rattle.writing.specs.Writing.{Wrote, digit, digits, decimal};

// Bytes go into the text from a place on, as many as fit; the place after them is answered.
pub fn put(text: &mut [u8], at: usize, bytes: &[u8]) -> usize
    ensures { Wrote text.old at bytes.now text.new result }
{
    // Byte by byte: a `copy_from_slice` of a name into a lent text becomes a call of memmove, which the library for C doesn't ask for.
    let mut p = at;
    for i in 0..bytes.len() {
        if text.len() <= p {
            return p;
        }
        text[p] = bytes[i];
        p += 1;
    }
    p
}

// One digit.
fn put_digit(text: &mut [u8], at: usize, x: u64) -> usize
    requires { (at < length text.old) × (x < 10) }
    ensures { Wrote text.old at (digit x ∷ []) text.new result }
{
    text[at] = 48 + x as u8;
    at + 1
}

// The digits of a number, at most so many, the most significant first.
fn put_digits(text: &mut [u8], at: usize, x: u64, most: usize) -> usize
    requires { at + most ≤ length text.old }
    ensures { Wrote text.old at (digits most x) text.new result }
{
    if most == 0 {
        return at;
    }
    if x < 10 {
        return put_digit(text, at, x);
    }
    let a = put_digits(text, at, x / 10, most - 1);
    put_digit(text, a, x % 10)
}

// A number in decimal.
pub fn put_decimal(text: &mut [u8], at: usize, x: u64) -> usize
    ensures { Wrote text.old at (decimal x) text.new result }
{
    let mut shown = [0u8; 20];
    let n = put_digits(&mut shown, 0, x, 20);
    put(text, at, &shown[..n])
}
