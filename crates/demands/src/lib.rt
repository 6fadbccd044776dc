// The demands as theorems over the definitions: specs/ states them, proofs/ proves them. No function is declared here.

#![tactic(auto)]
