// Nothing is left to the builder's choice: theorems about the promises of the public calls. There is no code here: see proofs/.
#![tactic(auto)]
