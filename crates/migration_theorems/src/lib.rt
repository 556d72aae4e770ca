// What holds of migration (docs/RULES.md, 'Migration'): statements in specs/, proofs in proofs/. No code: what the checker needs to see a crate.
#![tactic(auto)]
