// Datagrams and streams of SIP004, the 2017 edition.
ghost use Rattle.std.specs.Prelude.{◌≡◌};
ghost use Rattle.relay.specs.Sip004.{seals_datagram, opens_datagram, begins_sealing, begins_opening, seals_chunk, opens_chunk};

use super::SETTINGS;
use sip004_stream::framing_of;
use stream_answers::{open_on, seal_on, write_receiver, write_sender};
use words::{ANSWER, method_in};

// ---- datagrams

// Seals a datagram under a fresh salt to the front of the lent buffer. The answer is its length.
pub fn relay_sip004_datagram_seal(
    method: u64,
    key: &[u8],
    salt: &[u8],
    payload: &[u8],
    out: &mut [u8],
    answer: &mut [u64],
) -> u64
    ensures { record { number = result; out = out.new; answer = answer.new }
        ≡ seals_datagram method key.now salt.now payload.now out.old answer.old }
{
    if answer.len() != ANSWER {
        return SETTINGS;
    }
    match sip004::seal(method, key, salt, payload, out) {
        Ok(n) => {
            answer[0] = n as u64;
            0
        }
        Err(refusal) => refusal.number(),
    }
}

// Opens a datagram to the front of the lent buffer. The answer is the length of what was sealed.
pub fn relay_sip004_datagram_open(
    method: u64,
    key: &[u8],
    datagram: &[u8],
    out: &mut [u8],
    answer: &mut [u64],
) -> u64
    ensures { record { number = result; out = out.new; answer = answer.new }
        ≡ opens_datagram method key.now datagram.now out.old answer.old }
{
    if answer.len() != ANSWER {
        return SETTINGS;
    }
    match sip004::open(method, key, datagram, out) {
        Ok(n) => {
            answer[0] = n as u64;
            0
        }
        Err(refusal) => refusal.number(),
    }
}

// ---- streams

// Begins a stream that seals, in 8 words, behind a fresh salt that the host sends first.
pub fn relay_sip004_stream_begin_seal(
    method: u64,
    key: &[u8],
    salt: &[u8],
    stream: &mut [u64],
) -> u64
    ensures { record { number = result; stream = stream.new }
        ≡ begins_sealing method key.now salt.now stream.old }
{
    write_sender(sip004_stream::begin_seal(method, key, salt), stream)
}

// Begins a stream that opens, behind the salt that came first.
pub fn relay_sip004_stream_begin_open(
    method: u64,
    key: &[u8],
    salt: &[u8],
    stream: &mut [u64],
) -> u64
    ensures { record { number = result; stream = stream.new }
        ≡ begins_opening method key.now salt.now stream.old }
{
    write_receiver(sip004_stream::begin_open(method, key, salt), stream)
}

// Seals a length with its payload to the front of the lent buffer and moves the stream two counters further.
pub fn relay_sip004_stream_seal_chunk(
    stream: &mut [u64],
    payload: &[u8],
    out: &mut [u8],
    answer: &mut [u64],
) -> u64
    ensures { record { number = result; out = out.new; stream = stream.new; answer = answer.new }
        ≡ seals_chunk stream.old payload.now out.old answer.old }
{
    seal_on(framing_of(method_in(stream)), stream, payload, out, answer)
}

// Opens the next piece of a stream: a length, or a payload to the front of the lent buffer.
pub fn relay_sip004_stream_open_chunk(
    stream: &mut [u64],
    bytes: &[u8],
    out: &mut [u8],
    answer: &mut [u64],
) -> u64
    ensures { record { number = result; out = out.new; stream = stream.new; answer = answer.new }
        ≡ opens_chunk stream.old bytes.now out.old answer.old }
{
    open_on(framing_of(method_in(stream)), stream, bytes, out, answer)
}
