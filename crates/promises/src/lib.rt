// What is promised of several crates together, as statements (specs/) with their proofs (proofs/). There is no code here.
#![tactic(auto)]
