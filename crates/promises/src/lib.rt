// What is promised of all calls together: definitions in specs/, theorems in proofs/.
#![tactic(auto)]
