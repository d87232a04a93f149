// What is proved of the exported functions. All of it is in specs/ and proofs/.
#![tactic(auto)]
