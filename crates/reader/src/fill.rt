// The packed nodes, field by field, into the lent slices.
ghost use Rattle.std.specs.Prelude.{◌≡◌, map, ◌≤◌, ◌<◌, ◌/◌, ◌%◌, length, take};
ghost use Rattle.std.proofs.lemmas.List.Edits.{sets};

pub(crate) fn fill_bytes(scratch: &[u64], n: usize, unit: u64, to: &mut [u8])
    requires { (0 < unit) × (n ≤ length scratch.now) × (n ≤ length to.old) }
    ensures { to.new ≡ sets to.old 0 (map (λ e. e / unit % 256) (take n scratch.now)) }
{
    for i in 0..n {
        to[i] = (scratch[i] / unit % 256) as u8;
    }
}

pub(crate) fn fill_places(scratch: &[u64], n: usize, unit: u64, to: &mut [u16])
    requires { (0 < unit) × (n ≤ length scratch.now) × (n ≤ length to.old) }
    ensures { to.new ≡ sets to.old 0 (map (λ e. e / unit % 65536) (take n scratch.now)) }
{
    for i in 0..n {
        to[i] = (scratch[i] / unit % 65536) as u16;
    }
}
