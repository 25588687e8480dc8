// General definitions on lists and lemmas about them; nothing of IAL. It has no code: the definitions are in specs/, the lemmas in proofs/.
#![tactic(auto)]
