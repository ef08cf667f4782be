// The operators by code (unary.rs, binary.rs): the constant table, with token, group and commuting mark, and the operators on sequences, with refusals.
#![tactic(auto)]

ghost use Rattle.std.specs.Prelude.{◌≡◌, [], ◌∷◌};
ghost use Rattle.rules.specs.Answers.{Tested};
ghost use Rattle.rules.specs.Refusals.{Decided, number_of};
ghost use Rattle.sequence.specs.Sequence.{unequal, UnaryAnswer, BinaryAnswer};
ghost use Rattle.operators.specs.Table.{Listed, GroupIs, off_group};

use rules::refusal::Refusal;
use sequence::CharSeq;

#[derive(Clone, Copy, Debug, PartialEq, Eq)]
pub enum Group {
    Unary,
    Binary,
    Neither,
}

// A token has up to 4 bytes; those past its length are 0.
#[derive(Clone, Copy)]
pub struct Operator {
    pub token: [u8; 4],
    pub bytes: usize,
    pub group: Group,
    pub commutes: bool,
}

const COUNT: usize = 11;

const OPERATORS: [Operator; COUNT] = [
    Operator {
        token: [b'!', 0, 0, 0],
        bytes: 1,
        group: Group::Unary,
        commutes: false,
    },
    Operator {
        token: [b'X', 0, 0, 0],
        bytes: 1,
        group: Group::Unary,
        commutes: false,
    },
    Operator {
        token: [b'X', b'[', b'!', b']'],
        bytes: 4,
        group: Group::Unary,
        commutes: false,
    },
    Operator {
        token: [b'F', 0, 0, 0],
        bytes: 1,
        group: Group::Unary,
        commutes: false,
    },
    Operator {
        token: [b'G', 0, 0, 0],
        bytes: 1,
        group: Group::Unary,
        commutes: false,
    },
    Operator {
        token: [b'|', 0, 0, 0],
        bytes: 1,
        group: Group::Binary,
        commutes: true,
    },
    Operator {
        token: [b'&', 0, 0, 0],
        bytes: 1,
        group: Group::Binary,
        commutes: true,
    },
    Operator {
        token: [b'U', 0, 0, 0],
        bytes: 1,
        group: Group::Binary,
        commutes: false,
    },
    Operator {
        token: [b'R', 0, 0, 0],
        bytes: 1,
        group: Group::Binary,
        commutes: false,
    },
    Operator {
        token: [b'-', b'>', 0, 0],
        bytes: 2,
        group: Group::Binary,
        commutes: false, // p -> q and q -> p differ
    },
    Operator {
        token: [b'<', b'-', b'>', 0],
        bytes: 3,
        group: Group::Binary,
        commutes: true,
    },
];

// The table's row for a code. The leaves, 16 to 18, and every other code are in no group.
pub fn operator_of(code: u8) -> Operator
    ensures { Listed code result }
{
    let at = code as usize;
    if at < COUNT {
        OPERATORS[at]
    } else {
        Operator {
            token: [0, 0, 0, 0],
            bytes: 0,
            group: Group::Neither,
            commutes: false,
        }
    }
}

// Whether the code's group, by the table, is the one asked for.
pub fn in_group(code: u8, unary: bool) -> bool
    ensures { Tested (GroupIs unary code) result }
{
    let group = operator_of(code).group;
    match group {
        Group::Unary => unary,
        Group::Binary => !unary,
        Group::Neither => false,
    }
}

// A code that is not of the group that is asked for is refused.
fn check_group(code: u8, unary: bool) -> Result<(), Refusal>
    ensures { Decided (off_group unary code ∷ []) (number_of result) }
{
    if in_group(code, unary) {
        Ok(())
    } else {
        Err(Refusal::Code)
    }
}

fn check_lengths(left: CharSeq, right: CharSeq) -> Result<(), Refusal>
    ensures { Decided (unequal left right ∷ []) (number_of result) }
{
    if left.length == right.length {
        Ok(())
    } else {
        Err(Refusal::Unequal)
    }
}

// The unary operator of a code on a sequence, or a refusal.
#[tactic(auto, using(crate::proofs::Checks::unary_off, crate::proofs::Checks::unary_ill))]
pub fn apply_unary(code: u8, seq: CharSeq) -> Result<CharSeq, Refusal>
    ensures { UnaryAnswer code seq result }
{
    check_group(code, true)?;
    seq.check()?;
    Ok(seq.unary(code))
}

// The binary operator of a code on two sequences of one length, or a refusal.
#[tactic(auto, using(crate::proofs::Checks::binary_off, crate::proofs::Checks::left_ill, crate::proofs::Checks::right_ill, crate::proofs::Checks::lengths_apart))]
pub fn apply_binary(code: u8, left: CharSeq, right: CharSeq) -> Result<CharSeq, Refusal>
    ensures { BinaryAnswer code left right result }
{
    check_group(code, false)?;
    left.check()?;
    right.check()?;
    check_lengths(left, right)?;
    Ok(left.binary(code, right))
}
