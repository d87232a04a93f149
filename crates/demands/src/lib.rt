// Demands 1, 2 and 3 and the edges, about the definitions that the code of the other crates is proved to equal. All of it is
// in specs/ and proofs/.
#![tactic(auto)]
