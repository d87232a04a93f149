// What is promised of plans, about the definitions that the code of crate plan is proved to equal. All of it is in specs/ and
// proofs/.
#![tactic(auto)]
