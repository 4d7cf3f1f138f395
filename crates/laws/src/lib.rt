// General definitions and laws on numbers, lists, slices and stores: see specs/ and proofs/. There is no code here.
#![tactic(auto)]
