// The three demands hold for every call: theorems over the definitions. There is no code here: see proofs/.
#![tactic(auto)]
