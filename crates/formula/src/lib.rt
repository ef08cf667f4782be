// Formulas as node lists (formula/mod.rs, formula/tree.rs): the node, the nodes of lent slices and the rule of a list.
#![tactic(auto)]

pub mod kinds;
pub mod nodes;
