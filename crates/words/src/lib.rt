// What a host holds between calls, and reads from an answer, in words of 64 bits: states.rt has sending sessions and streams,
// answers.rt what is written into an answer. Any words have a meaning.
#![tactic(auto)]

mod answers;
mod states;

pub use answers::{
    chunk_words, first, head_words, header_words, kind, refuse, second, variable_words,
};
pub use states::{
    is_receiver, is_session, method_in, receiver_in, receiver_words, sender_in, sender_words,
    session_in, session_words,
};

// The words of an answer. A function with fewer values writes the first ones and leaves the rest.
pub const ANSWER: usize = 9;

// The words of a sending session.
pub const SESSION: usize = 4;

// The words of a stream.
pub const STREAM: usize = 8;

// A stream's first word, its turn: numbers, since C holds and lends a stream as words.
pub const ENDED: u64 = 0;

pub const LENGTH_NEXT: u64 = 1;

pub const PAYLOAD_NEXT: u64 = 2;

pub const SEALING: u64 = 3;

pub const VARIABLE_NEXT: u64 = 4;
