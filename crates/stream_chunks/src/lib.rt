// What is promised of the chunks of a stream over every framing, and so of both editions, about the definitions that the code of
// stream_seal and stream_open is proved to equal. All of it is in specs/ and proofs/.
#![tactic(auto)]
