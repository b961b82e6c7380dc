// The history of demand 3 and the closing theorem: definitions (specs/) and proofs alone.
#![tactic(auto)]
