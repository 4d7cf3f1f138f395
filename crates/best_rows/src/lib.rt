// The dynamic program over rows of siblings as definitions (specs/), and that it finds the plan (proofs/). There is no code here.
#![tactic(auto)]
