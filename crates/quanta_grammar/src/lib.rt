// The grammar of Quanta and its theorems: definitions in specs/, proofs in proofs/.
#![tactic(auto)]
