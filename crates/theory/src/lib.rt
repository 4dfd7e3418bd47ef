// No code: specs/ holds demand 3 as a statement about the rules, proofs/ its proof and the facts about the rules that code needs.
#![tactic(auto)]
