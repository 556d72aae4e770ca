// That every plan has one form (docs/RULES.md, 'Chute plan' and 'Hall plan'), over the definitions that the entries' contracts cite. The statements stand in
// specs/, their proofs in proofs/.
#![tactic(auto)]
