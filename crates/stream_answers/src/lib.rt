// What a call about a stream answers, told in words that a host lends: the stream as it is then, and an answer. Each function gives
// 0 or the number of a refusal. Calls about a chunk are in chunks.rt, and streams of SIP004 are begun in begin.rt.
#![tactic(auto)]

ghost use Rattle.std.specs.Prelude.{◌≡◌, ◌≤◌, length};
ghost use Rattle.std.proofs.lemmas.List.Edits.{sets};
ghost use Rattle.protocol.specs.Refusal.{refusal_number};
ghost use Rattle.words.specs.Answers.{answer_words, refused_answer};
ghost use Rattle.words.specs.States.{stream_size, receiver_words};
ghost use Rattle.stream_answers.specs.Told as told;

use protocol::Refusal;
use stream_open::{Receiver, Step};
use stream_open_request::Request;
use stream_open_response::Response;
use stream_open_variable::VariableStep;
use stream_seal::Sender;
use words::{ENDED, chunk_words, head_words, receiver_words, refuse, sender_words, variable_words};

mod begin;
mod chunks;

pub use begin::{write_receiver, write_sender};
pub use chunks::{SETTINGS, fits, open_on, seal_on};

// Gives the stream and the number of bytes sealed to the caller.
pub fn write_sealed(
    sealed: Result<(usize, Sender), Refusal>,
    stream: &mut [u64],
    answer: &mut [u64],
) -> u64
    requires stream_len { length stream.old ≡ stream_size }
    requires answer_len { length answer.old ≡ answer_words }
    ensures value { result ≡ told.sealed_number sealed }
    ensures stream_after { stream.new ≡ told.sealed_stream sealed stream.old }
    ensures answer_after { answer.new ≡ told.sealed_words sealed answer.old }
{
    match sealed {
        Ok((n, sender)) => {
            records::write(stream, 0, &sender_words(sender));
            answer[0] = n as u64;
            0
        }
        Err(refusal) => refusal.number(),
    }
}

// Gives the words of what was opened, and the stream, to the caller.
fn write_opened(words: &[u64], next: Receiver, stream: &mut [u64], answer: &mut [u64]) -> u64
    requires stream_len { length stream.old ≡ stream_size }
    requires in_bounds { length words.now ≤ length answer.old }
    ensures value { result ≡ 0 }
    ensures stream_after { stream.new ≡ receiver_words next }
    ensures answer_after { answer.new ≡ sets answer.old 0 words.now }
{
    records::write(stream, 0, &receiver_words(next));
    records::write(answer, 0, words);
    0
}

// Gives what a request's front says, and the stream, to the caller.
pub fn write_request(
    opened: Result<(Request, Receiver), Refusal>,
    stream: &mut [u64],
    answer: &mut [u64],
) -> u64
    requires stream_len { length stream.old ≡ stream_size }
    requires answer_len { length answer.old ≡ answer_words }
    ensures value { result ≡ told.request_number opened }
    ensures stream_after { stream.new ≡ told.request_stream opened stream.old }
    ensures answer_after { answer.new ≡ told.request_answer opened answer.old }
{
    match opened {
        Ok((head, receiver)) => {
            let words = head_words(head.used, head.length, head.time);
            write_opened(&words, receiver, stream, answer)
        }
        Err(refusal) => refuse(refusal, answer),
    }
}

// A refusal writes no word of the stream, but its turn where it ends it.
fn write_refused(refusal: Refusal, stream: &mut [u64], answer: &mut [u64]) -> u64
    requires stream_len { length stream.old ≡ stream_size }
    requires answer_len { length answer.old ≡ answer_words }
    ensures value { result ≡ refusal_number refusal }
    ensures stream_after { stream.new ≡ told.refused_stream refusal stream.old }
    ensures answer_after { answer.new ≡ refused_answer refusal answer.old }
{
    if refusal.ends_stream() {
        stream[0] = ENDED;
    }
    refuse(refusal, answer)
}

// Gives a variable header, and the stream, to the caller.
pub fn write_variable(step: VariableStep, stream: &mut [u64], answer: &mut [u64]) -> u64
    requires stream_len { length stream.old ≡ stream_size }
    requires answer_len { length answer.old ≡ answer_words }
    ensures value { result ≡ told.variable_number step.answer }
    ensures stream_after { stream.new ≡ told.variable_stream step.answer step.stream stream.old }
    ensures answer_after { answer.new ≡ told.variable_told step.answer answer.old }
{
    match step.answer {
        Ok(header) => write_opened(&variable_words(header), step.stream, stream, answer),
        Err(refusal) => write_refused(refusal, stream, answer),
    }
}

// Gives the counts and the stream to the caller.
pub fn write_response(
    opened: Result<(Response, Receiver), Refusal>,
    stream: &mut [u64],
    answer: &mut [u64],
) -> u64
    requires stream_len { length stream.old ≡ stream_size }
    requires answer_len { length answer.old ≡ answer_words }
    ensures value { result ≡ told.response_number opened }
    ensures stream_after { stream.new ≡ told.response_stream opened stream.old }
    ensures answer_after { answer.new ≡ told.response_answer opened answer.old }
{
    match opened {
        Ok((head, receiver)) => {
            let words = head_words(head.used, head.length, head.time);
            write_opened(&words, receiver, stream, answer)
        }
        Err(refusal) => refuse(refusal, answer),
    }
}

// Gives the counts and the stream to the caller.
pub fn write_step(step: Step, stream: &mut [u64], answer: &mut [u64]) -> u64
    requires stream_len { length stream.old ≡ stream_size }
    requires answer_len { length answer.old ≡ answer_words }
    ensures value { result ≡ told.stepped_number step.answer }
    ensures stream_after { stream.new ≡ told.step_stream step.answer step.stream stream.old }
    ensures answer_after { answer.new ≡ told.stepped_answer step.answer answer.old }
{
    match step.answer {
        Ok(chunk) => write_opened(&chunk_words(chunk), step.stream, stream, answer),
        Err(refusal) => write_refused(refusal, stream, answer),
    }
}
