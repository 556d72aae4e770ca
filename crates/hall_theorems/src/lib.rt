// What holds of hall plans (docs/RULES.md, 'Hall plan'), over the definitions that the entries' contracts cite. The statements stand in specs/, their proofs in
// proofs/.
#![tactic(auto)]
