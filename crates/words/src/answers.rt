// What is written into a lent answer.
ghost use Rattle.std.specs.Prelude.{◌≡◌, length};
ghost use Rattle.words.specs.Answers.{answer_words, kind_of, first_of, second_of, header_words, variable_words, head_words, chunk_words, adds, refused_answer};
ghost use Rattle.protocol.specs.Refusal.{refusal_number};

use super::ANSWER;
use datagram_read::Header;
use protocol::Refusal;
use socks5::Target;
use stream_open::Chunk;
use stream_open_variable::VariableHeader;

// The kind byte of a target.
pub fn kind(target: Target) -> u64
    ensures { result ≡ kind_of target }
{
    match target {
        Target::V4(_) => 1,
        Target::Name(_, _) => 3,
        Target::V6(_, _) => 4,
    }
}

// The number of an IPv4 address, the first one of an IPv6 address, or the place of a name.
pub fn first(target: Target) -> u64
    ensures { result ≡ first_of target }
{
    match target {
        Target::V4(a) => a as u64,
        Target::Name(place, _) => place as u64,
        Target::V6(a, _) => a,
    }
}

// The second number of an IPv6 address, or the length of a name.
pub fn second(target: Target) -> u64
    ensures { result ≡ second_of target }
{
    match target {
        Target::V4(_) => 0,
        Target::Name(_, n) => n as u64,
        Target::V6(_, b) => b,
    }
}

// An opened datagram.
pub fn header_words(h: Header) -> [u64; ANSWER]
    ensures { result ≡ header_words h }
{
    [
        kind(h.target),
        first(h.target),
        second(h.target),
        h.port as u64,
        h.session,
        h.packet,
        h.time,
        h.padding as u64,
        h.payload as u64,
    ]
}

// An opened variable header of a request.
pub fn variable_words(h: VariableHeader) -> [u64; 8]
    ensures { result ≡ variable_words h }
{
    [
        kind(h.target),
        first(h.target),
        second(h.target),
        h.port as u64,
        h.padding as u64,
        h.payload as u64,
        h.used as u64,
        h.length as u64,
    ]
}

// An opened front of a head: how many bytes were used, the length of the piece behind it, and its time.
pub fn head_words(used: usize, length: u16, time: u64) -> [u64; 3]
    ensures { result ≡ head_words used length time }
{
    [used as u64, length as u64, time]
}

// An opened piece: how many bytes were used, and a length.
pub fn chunk_words(c: Chunk) -> [u64; 2]
    ensures { result ≡ chunk_words c }
{
    [c.used as u64, c.length as u64]
}

// Whether a refusal of this number tells something beside it.
fn adds(number: u64) -> bool
    ensures { result ≡ adds number }
{
    number == 10 || number == 15
}

// The number of a refusal; number 10 adds how many bytes are wanted in all, and 15 the setting's number.
#[tactic(auto, unfolding(crate::specs::Answers::refused_answer))]
pub fn refuse(refusal: Refusal, answer: &mut [u64]) -> u64
    requires { length answer.old ≡ answer_words }
    ensures value { result ≡ refusal_number refusal }
    ensures answer_after { answer.new ≡ refused_answer refusal answer.old }
{
    let n = refusal.number();
    if adds(n) {
        answer[0] = refusal.added();
    }
    n
}
