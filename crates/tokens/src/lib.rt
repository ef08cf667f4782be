// The bytes of a typed formula, and the infix operator that comes next.
#![tactic(auto)]

pub mod bytes;
pub mod operator;

// The offset of the first byte that can't continue a formula; where the text ends early, its length.
#[derive(Clone, Copy, Debug, PartialEq, Eq)]
pub struct Stop(pub usize);
