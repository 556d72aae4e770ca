// The twelve facts (docs/RULES.md, 'Facts') under a single statement. They stand in specs/, and their proof in proofs/.
#![tactic(auto)]
