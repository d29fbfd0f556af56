// Theorems about the error exchange as a host in C makes it. There is no code here: specs/ has the statements, proofs/ their proofs.
#![tactic(auto)]
