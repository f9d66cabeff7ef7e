// The theorems about the rules. There is no code here: the statements are in specs/, their proofs in proofs/.
#![tactic(auto)]
