// The theory of grammars and of reading by them: definitions in specs/, proofs in proofs/. Nothing here is of Quanta.
#![tactic(auto)]
