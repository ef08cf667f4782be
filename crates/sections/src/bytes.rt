// What stands at an offset of a file: how many bytes, and a word.
ghost use Rattle.std.specs.Prelude.{◌≡◌, ◌+◌, ◌-◌, ◌≤◌, ◌<◌, length, take, drop};
ghost use Rattle.sections.specs.Sections.{number};

// How many bytes there are from an offset on.
pub(crate) fn bytes_left(file: &[u8], at: usize) -> usize
    ensures { result ≡ length file.now - at }
{
    file.len().saturating_sub(at)
}

// "words of 8 bytes, low byte first"
pub(crate) fn word_at(file: &[u8], at: usize) -> u64
    requires { at + 8 ≤ length file.now }
    ensures { result ≡ number (take 8 (drop at file.now)) }
{
    let mut bytes = [0u8; 8];
    bytes.copy_from_slice(&file[at..at + 8]);
    u64::from_le_bytes(bytes)
}

// The word at any offset; where fewer than 8 bytes are left, 0.
pub fn word_from(file: &[u8], at: usize) -> u64
    ensures { ((at + 8 ≤ length file.now) → result ≡ number (take 8 (drop at file.now)))
        × (length file.now < at + 8 → result ≡ 0) }
{
    if bytes_left(file, at) < 8 {
        return 0;
    }
    word_at(file, at)
}
