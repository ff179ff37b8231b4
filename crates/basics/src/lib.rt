// Words on numbers and lists that the definitions of the other crates share. There is no code here: see specs/ and proofs/.
#![tactic(auto)]
