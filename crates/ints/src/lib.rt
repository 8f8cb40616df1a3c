// The whole numbers: the tests that the rest is stated with, in specs/, and their laws, in proofs/. No code.
#![tactic(auto)]
