// Theorems about reading and writing frames together. There is no code here: specs/ has the statements, proofs/ their proofs.
#![tactic(auto)]
