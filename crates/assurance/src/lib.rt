// The unrounded reckoning and what demand 3 assures: definitions in specs/, theorems in proofs/.
#![tactic(auto)]
