// The worked examples of document 01: a table of examples in specs/ and the theorem that covers it in proofs/. No code.
#![tactic(auto)]
