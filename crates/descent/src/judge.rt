// A text judged, in the order of the refusals; its tree's nodes are then in the scratch.
ghost use Rattle.names.specs.Names.{GoodNames};
ghost use Rattle.descent.specs.Judging.{JudgedIs};

use crate::read_text;
use reading::Broken;
use tokens::Stop;
use typed::depth::deep;
use typed::unknown::unknown;

// Which refusal a text gets: the names' 8, 12 for its bytes, no room in the scratch for so many, 11, 13, 12 for its size or brackets.
#[derive(Clone, Copy, Debug, PartialEq, Eq)]
pub enum JudgeError {
    Broken(usize),
    Long,
    Room,
    Stops(usize),
    Unknown(usize),
    Large,
}

impl From<Broken> for JudgeError {
    ghost use Rattle.std.specs.Prelude.{◌≡◌};
    ghost use Rattle.descent.specs.declared.judge.JudgeError.TheVariants.{Broken as BrokenNames};

    ghost from_gives = { λ broken e. e ≡ BrokenNames broken.0 };

    fn from(broken: Broken) -> JudgeError {
        JudgeError::Broken(broken.0)
    }
}

impl From<Stop> for JudgeError {
    ghost use Rattle.std.specs.Prelude.{◌≡◌};
    ghost use Rattle.descent.specs.declared.judge.JudgeError.TheVariants.{Stops};

    ghost from_gives = { λ stop e. e ≡ Stops stop.0 };

    fn from(stop: Stop) -> JudgeError {
        JudgeError::Stops(stop.0)
    }
}

// With names that are good.
fn judge_text(names: &[u8], text: &[u8], scratch: &mut [u64]) -> Result<usize, JudgeError>
    requires { GoodNames names.now }
    ensures { JudgedIs names.now text.now scratch.old scratch.new result }
{
    if rules::TYPED < text.len() {
        return Err(JudgeError::Long);
    }
    if scratch.len() < text.len() {
        return Err(JudgeError::Room);
    }
    let size = read_text(names, text, scratch)?;
    if let Some(k) = unknown(names, text) {
        return Err(JudgeError::Unknown(k));
    }
    if rules::BOUND < size || deep(text) {
        return Err(JudgeError::Large);
    }
    Ok(size)
}

// How many nodes a text has that is taken so far. A node of the tree takes one place of the scratch, from the first on; the scratch needs as many as the text has bytes.
pub fn judge(names: &[u8], text: &[u8], scratch: &mut [u64]) -> Result<usize, JudgeError>
    ensures { JudgedIs names.now text.now scratch.old scratch.new result }
{
    names::judge(names)?;
    judge_text(names, text, scratch)
}
