// The mathematics of disjoint paths over any split network: it knows no radios and no tokens. There is no code here: see proofs/.
#![tactic(auto)]
