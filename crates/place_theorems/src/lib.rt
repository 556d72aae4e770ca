// What holds of the places that answers on plans tell (docs/RULES.md, 'Places'), over the definitions that the entries' contracts cite. The statements stand in
// specs/, their proofs in proofs/.
#![tactic(auto)]
