// How a name may be spelt: the bytes that names are made of, when two names are the same, and the words that no name may be.
#![tactic(auto)]

pub mod bytes;
pub mod letter;
pub mod reserved;
