// What is promised of the 2017 edition (SIP004), about the definitions that the code of crate sip004 is proved to equal. All of it
// is in specs/ and proofs/.
#![tactic(auto)]
