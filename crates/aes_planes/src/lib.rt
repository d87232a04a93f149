// The steps of an AES round on planes of bits, for 32 blocks at once: digit k of a word is block k's. The planes of a state are
// 128 words, bit i of row r and column c at 32 r + 4 i + c, so that a loop over the four columns works on words side by side,
// which the compiler turns into vectors. Nothing is looked up: the time depends on no key and no text.
#![tactic(auto)]

pub mod mix;
pub mod sub;
