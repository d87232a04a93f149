// What is promised of files of settings, about the definitions that the code of settings_read and settings_write is proved to equal. All
// of it is in specs/ and proofs/.
#![tactic(auto)]
