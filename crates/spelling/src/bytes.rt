// Equal bytes.
ghost use Rattle.std.specs.Prelude.{◌≡◌};
ghost use Rattle.spelling.specs.Spelling.{same_bytes};

// Whether two runs of bytes are the same.
#[tactic(auto, using(crate::proofs::Same::equal_is))]
pub fn same(a: &[u8], b: &[u8]) -> bool
    ensures { result ≡ same_bytes a.now b.now }
{
    a == b
}
