// Both trips of a listing, there and back. There is no code here: the statements are in specs/, their proofs in proofs/.
#![tactic(auto)]
