// Paths, cuts and the largest number on the map of a site, from marks that are a flow. There is no code here: see proofs/.
#![tactic(auto)]
