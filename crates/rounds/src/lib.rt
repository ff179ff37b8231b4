// One round of the token rules shows what a round of any search must show. There is no code here: see proofs/.
#![tactic(auto)]
