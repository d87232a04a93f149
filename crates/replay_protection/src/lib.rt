// Nothing is accepted twice: datagrams by the openers, request heads by their first call. All of it is in specs/ and proofs/.
#![tactic(auto)]
