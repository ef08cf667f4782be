// The text of a formula (formula/tree.rs: `Display`): printing a node list by lent names.
#![tactic(auto)]

mod text;

ghost use Rattle.formula.specs.Kinds.{node_of, nodes};
ghost use Rattle.text.specs.Print.{said_printed, Prints};
ghost use Rattle.text.specs.Inner.{Passed};

use formula::kinds::Node;
use reading::Broken;
use rules::refusal::Refusal;
use text::write;

// "391 bytes suffice for any formula."
pub const LONGEST: usize = 391;

// Why nothing is printed: the names section is broken, at an offset, or a refusal.
#[derive(Clone, Copy, Debug, PartialEq, Eq)]
pub enum PrintError {
    Broken(usize),
    Refused(Refusal),
}

impl From<Broken> for PrintError {
    ghost use Rattle.std.specs.Prelude.{◌≡◌};
    ghost use Rattle.text.specs.declared.PrintError.TheVariants.{Broken};

    ghost from_gives = { λ broken error. error ≡ Broken broken.0 };

    fn from(broken: Broken) -> PrintError {
        PrintError::Broken(broken.0)
    }
}

impl From<Refusal> for PrintError {
    ghost use Rattle.std.specs.Prelude.{◌≡◌};
    ghost use Rattle.text.specs.declared.PrintError.TheVariants.{Refused};

    ghost from_gives = { λ refusal error. error ≡ Refused refusal };

    fn from(refusal: Refusal) -> PrintError {
        PrintError::Refused(refusal)
    }
}

// The text of what has passed: in a room of its own, which is long enough for any, and then in the lent one.
fn print_passed(
    names: &[u8],
    codes: &[u8],
    lefts: &[u16],
    rights: &[u16],
    sizes: &[u8],
    root: Node,
    room: &mut [u8],
) -> Result<usize, PrintError>
    requires { Passed names.now (nodes codes.now lefts.now rights.now sizes.now) (node_of root) }
    ensures { Prints names.now (nodes codes.now lefts.now rights.now sizes.now)
        (node_of root) room.old (said_printed result) room.new }
{
    let mut whole = [0u8; LONGEST];
    let n = write(names, codes, lefts, rights, sizes, root, &mut whole, 0);
    if room.len() < n {
        return Err(PrintError::Refused(Refusal::Room));
    }
    Ok(writing::put(room, 0, &whole[..n]))
}

// The text of the root's formula, at the start of the lent room.
pub fn print(
    names: &[u8],
    codes: &[u8],
    lefts: &[u16],
    rights: &[u16],
    sizes: &[u8],
    root: Node,
    room: &mut [u8],
) -> Result<usize, PrintError>
    ensures { Prints names.now (nodes codes.now lefts.now rights.now sizes.now)
        (node_of root) room.old (said_printed result) room.new }
{
    let count = names::judge(names)?;
    formula::nodes::check(count, codes, lefts, rights, sizes, root)?;
    print_passed(names, codes, lefts, rights, sizes, root, room)
}
