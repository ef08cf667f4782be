// Larger runs of the walk, by its definition: no program.
#![tactic(auto)]
