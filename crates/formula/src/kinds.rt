// The node, and the codes of leaves.
use rules::kinds::Place;

// The codes of leaves. Those of operators are the table's.
pub const PROPOSITION: u8 = 16;

pub const FALSE: u8 = 17;

pub const TRUE: u8 = 18;

// Unused fields are 0; the left field of a proposition's node is its number.
#[derive(Clone, Copy)]
pub struct Node {
    pub code: u8,
    pub left: Place,
    pub right: Place,
    pub size: u8,
}
