// Theorems about the error exchange as a whole. There is no code here: specs/ has the statements, proofs/ their proofs.
#![tactic(auto)]
