// The definitions of document 01, and facts about them. It has no code: the definitions are in specs/, the facts in proofs/.
#![tactic(auto)]
