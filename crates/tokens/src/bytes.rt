// Bytes of the text.
ghost use Rattle.std.specs.Prelude.{◌≡◌, get_or};

// The byte at an offset; past the end, 0, which no token has.
pub fn byte(text: &[u8], at: usize) -> u8
    ensures { result ≡ get_or text.now at 0 }
{
    if at < text.len() {
        return text[at];
    }
    0
}
