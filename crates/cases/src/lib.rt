// The cases of document 01 that are proved are in specs/, and that each of them holds in proofs/. There is no code.
#![tactic(auto)]
