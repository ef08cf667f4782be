// What of a typed text is judged besides its grammar: its first unknown name, and how deep its brackets nest.
#![tactic(auto)]

pub mod depth;
pub mod unknown;
