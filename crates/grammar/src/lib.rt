// The grammar of formulas read from text: specs/ and proofs/ only.
#![tactic(auto)]
