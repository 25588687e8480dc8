// Theorems about the definitions alone. It has no code: the statements are in specs/, the proofs in proofs/.
#![tactic(auto)]
