// The unary operators over a matrix: the operator is chosen once for a candidate, and each has a loop of its own.
ghost use Rattle.loops.specs.Loops.{UnaryOver};

use crate::fill;

// The operator with the code, over the rows of its child. Nothing is written where a slice is shorter than r or the code is no unary operator's.
pub fn by_code(r: usize, masks: &[u64], x: &[u64], code: u8, rows: &mut [u64])
    ensures { UnaryOver r masks.now x.now code rows.old rows.new }
{
    if masks.len() < r {
        return;
    }
    if x.len() < r {
        return;
    }
    if rows.len() < r {
        return;
    }
    match code {
        0 => fill(r, rows, |j| words::not(x[j], masks[j])),
        1 => fill(r, rows, |j| words::weak_next(x[j], masks[j])),
        2 => fill(r, rows, |j| words::strong_next(x[j])),
        3 => fill(r, rows, |j| words::finally(x[j], masks[j])),
        4 => fill(r, rows, |j| words::globally(x[j], masks[j])),
        _ => {}
    }
}
