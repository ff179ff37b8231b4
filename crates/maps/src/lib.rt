// Document 01's maps on both sides of each edge, computed by the definitions, and the empty programs held against the sheet of a text.
// There is no code here: see specs/ and proofs/.
#![tactic(auto)]
