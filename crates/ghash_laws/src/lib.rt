// The laws of GCM's field and of GHASH, about the definitions that the code of `ghash` is proved to equal. All of it is in
// specs/ and proofs/.
#![tactic(auto)]
