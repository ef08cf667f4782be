// What closes an expression: the closing bracket, or the end of the text.
ghost use Rattle.std.specs.Prelude.{◌≤◌, length};
ghost use Rattle.descent.specs.Answers.{Closing, EndsAt};

use tokens::operator::{Next, operator};
use tokens::{Stop, bytes};

// The end of the closing bracket after an expression.
pub(crate) fn closing(text: &[u8], at: usize) -> Result<usize, Stop>
    requires { at ≤ length text.now }
    ensures { Closing text.now at result }
{
    match operator(text, at)? {
        Next::Nothing(i) => {
            if bytes::byte(text, i) != b')' {
                return Err(Stop(i));
            }
            Ok(i + 1)
        }
        Next::Infix(o) => Err(Stop(o.next)),
    }
}

// The end of the text after an expression.
pub(crate) fn ending(text: &[u8], at: usize) -> Result<(), Stop>
    requires { at ≤ length text.now }
    ensures { EndsAt text.now at result }
{
    match operator(text, at)? {
        Next::Nothing(i) => {
            if i != text.len() {
                return Err(Stop(i));
            }
            Ok(())
        }
        Next::Infix(o) => Err(Stop(o.next)),
    }
}
