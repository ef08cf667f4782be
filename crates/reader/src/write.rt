// What was judged good, into the lent slices.
ghost use Rattle.reader.specs.Lent.{Enough, Unpacked};

use crate::fill::{fill_bytes, fill_places};

pub(crate) fn write(
    scratch: &[u64],
    n: usize,
    codes: &mut [u8],
    lefts: &mut [u16],
    rights: &mut [u16],
    sizes: &mut [u8],
)
    requires { Enough n scratch.now codes.old lefts.old rights.old sizes.old }
    ensures { Unpacked n scratch.now
        codes.old lefts.old rights.old sizes.old
        codes.new lefts.new rights.new sizes.new }
{
    fill_bytes(scratch, n, 1, codes);
    fill_places(scratch, n, 256, lefts);
    fill_places(scratch, n, 16777216, rights);
    fill_bytes(scratch, n, 1099511627776, sizes);
}
