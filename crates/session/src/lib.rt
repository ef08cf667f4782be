// Session data (trace.rs: `Trace`): the tests that search and check share.
#![tactic(auto)]

pub mod data;
