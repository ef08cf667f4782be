// The walk of document 01 as a definition, and what its answers mean, as theorems: mathematics, to which the search is proved equal.
#![tactic(auto)]
