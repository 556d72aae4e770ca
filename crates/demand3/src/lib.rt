// Demand 3: which calls, and which seedings of the two generators, are fed alike. The claim stands in specs/, its proof in proofs/.
#![tactic(auto)]
