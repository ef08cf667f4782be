// What is printed is read back, and what is read prints: no program, only what follows of the contracts of `text::print` and `reader::parse`.
#![tactic(auto)]
