// Captures in writing: reading is the inverse of writing, the order of the lines does not matter, and the program lends enough for every call that it makes.
// There is no code here: see specs/ and proofs/.
#![tactic(auto)]
