// The plain book and demand 3, over what a call's arguments decide. All of it is in specs/ and proofs/.
#![tactic(auto)]
