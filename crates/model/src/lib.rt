// Document 01, with the requests of 02 that are built, as definitions (specs/) and their laws (proofs/). There is no code here.
#![tactic(auto)]
