// The loop behind acceptance.
ghost use Rattle.std.specs.Prelude.{◌≡◌, eqb};
ghost use Rattle.std.specs.Bool.{beq};
ghost use Rattle.rules.specs.Lists.{count};
ghost use Rattle.walk.specs.Rows.{accepts_row};
ghost use Rattle.walk.specs.Input.{every};
ghost use Rattle.table.specs.Acceptance.{agrees_at};
ghost use Rattle.rules.specs.Limits.{WordForEach};

// A session accepts what has bit 0 of its row set.
fn agrees_at(x: u64, mark: u8) -> bool
    ensures { result ≡ beq (accepts_row x) (eqb mark 1) }
{
    if x & 1 == 1 { mark == 1 } else { mark != 1 }
}

// Whether each session agrees with its mark.
pub(crate) fn all_agree(r: usize, marks: &[u8], rows: &[u64]) -> bool
    requires { WordForEach r marks.now × WordForEach r rows.now }
    ensures { result ≡ every (count 0 r) (agrees_at marks.now rows.now) }
{
    (0..r).all(|j| agrees_at(rows[j], marks[j]))
}
