// What the report says of a formula on a session, and its line.
#![tactic(auto)]

pub mod line;
pub mod values;
