// The binary operators over two matrices: the operator is chosen once for a candidate, and each has a loop of its own.
ghost use Rattle.loops.specs.Loops.{BinaryOver};

use crate::fill;

// The operator with the code, over the rows of its children. Nothing is written where a slice is shorter than r or the code is no binary operator's.
pub fn by_code(r: usize, masks: &[u64], x: &[u64], y: &[u64], code: u8, rows: &mut [u64])
    ensures { BinaryOver r masks.now x.now y.now code rows.old rows.new }
{
    if masks.len() < r {
        return;
    }
    if x.len() < r {
        return;
    }
    if y.len() < r {
        return;
    }
    if rows.len() < r {
        return;
    }
    match code {
        5 => fill(r, rows, |j| words::or(x[j], y[j])),
        6 => fill(r, rows, |j| words::and(x[j], y[j])),
        7 => fill(r, rows, |j| words::until(x[j], y[j], masks[j])),
        8 => fill(r, rows, |j| words::release(x[j], y[j], masks[j])),
        9 => fill(r, rows, |j| words::implies(x[j], y[j], masks[j])),
        10 => fill(r, rows, |j| words::equiv(x[j], y[j], masks[j])),
        _ => {}
    }
}
