// What was typed with a caret under a byte of it, written into the lent text.
ghost use Rattle.std.specs.Prelude.{◌≤◌};
ghost use Rattle.rules.specs.Limits.{most_bytes};
ghost use Rattle.writing.specs.Writing.{Wrote};
ghost use Rattle.suspicion.specs.Caret.{pointed_lines};

use line::refused_at;
use writing::put;

// What was typed, a caret under the byte at the offset, and the refusal.
pub(crate) fn pointed(text: &mut [u8], typed: &[u8], at: usize, number: u8) -> usize
    requires { at ≤ most_bytes }
    ensures { Wrote text.old 0 (pointed_lines typed.now at number) text.new result }
{
    let blank = [b' '; rules::TYPED];
    let a = put(text, 0, typed);
    let b = put(text, a, b"\n");
    let c = put(text, b, &blank[..at]);
    let d = put(text, c, b"^\n");
    refused_at(text, d, number, at)
}
