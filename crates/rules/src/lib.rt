// The documents' own vocabulary: their limits for the code (for the contracts they are in specs/Limits.antt) and the kinds of numbers and of refusals.
#![tactic(auto)]

pub mod kinds;
pub mod refusal;

// "sessions r 1 to 32"
pub const SESSIONS: usize = 32;

// "propositions m 1 to 16"
pub const PROPOSITIONS: usize = 16;

// "size bound B 1 to 31"
pub const BOUND: usize = 31;

// "table room C 1 to 4,096 formulas", and "a node list of 0 to 4,096 nodes"
pub const ROOM: usize = 4096;

// "12 if the text passes 4,096 bytes" (request E2)
pub const TYPED: usize = 4096;

// "a budget of 0 to 1,000,000 candidates" (request E7)
pub const BUDGET: u64 = 1000000;
