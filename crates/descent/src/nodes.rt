// A node as one number, while it is not yet known whether the text is taken.
ghost use Rattle.std.specs.Prelude.{◌≡◌, ◌+◌, ◌-◌, ◌≤◌, ◌<◌, length, set};
ghost use Rattle.formula.specs.Kinds.{node};
ghost use Rattle.descent.specs.Packed.{pack, most_field};

// One node goes to its place.
pub(crate) fn put(
    scratch: &mut [u64],
    place: usize,
    code: u8,
    left: usize,
    right: usize,
    size: usize,
)
    requires { (place < length scratch.old) × (left < most_field) × (right < most_field) × (size < most_field) }
    ensures { scratch.new ≡ set scratch.old place (pack (node code left right size)) }
{
    scratch[place] = code as u64
        + 256 * left as u64
        + 16777216 * right as u64
        + 1099511627776 * size as u64;
}

// The node of a prefix operator, behind the nodes of its operand, which stand from a place on.
pub(crate) fn put_one(scratch: &mut [u64], code: u8, place: usize, size: usize)
    requires { (1 ≤ size) × (place + size < length scratch.old) × (place + size + 1 < most_field) }
    ensures { scratch.new ≡ set scratch.old (place + size) (pack (node code (place + size - 1) 0 (1 + size))) }
{
    put(scratch, place + size, code, place + size - 1, 0, 1 + size);
}

// The node of an infix operator, behind the nodes of its right operand, which stand behind those of the left one.
pub(crate) fn put_two(scratch: &mut [u64], code: u8, behind: usize, size: usize, r: usize)
    requires { (1 ≤ behind) × (behind + r < length scratch.old) × (behind + r < most_field) × (1 + size + r < most_field) }
    ensures { scratch.new ≡ set scratch.old (behind + r) (pack (node code (behind - 1) (behind + r - 1) (1 + size + r))) }
{
    put(
        scratch,
        behind + r,
        code,
        behind - 1,
        behind + r - 1,
        1 + size + r,
    );
}
