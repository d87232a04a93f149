// Salt pools and streams of SIP022.
ghost use Rattle.std.specs.Prelude.{◌≡◌};
ghost use Rattle.salt_pool.specs.Pool.{make_lawful, made};
ghost use Rattle.relay.specs.Datagrams.{settings_number};
ghost use Rattle.relay.specs.Streams.{seals_request, seals_response, seals_chunk};
ghost use Rattle.relay.specs.Streams.{opens_request, opens_variable, opens_response, opens_chunk};

use super::SETTINGS;
use stream_answers::{
    fits, open_on, seal_on, write_request, write_response, write_sealed, write_variable,
};
use stream_pieces::framing_of;
use words::{ANSWER, is_receiver, method_in, receiver_in};

// Makes a salt pool of 1,537 words for a method.
pub fn relay_pool_new(method: u64, pool: &mut [u64]) -> u64
    ensures value { result ≡ settings_number (make_lawful method pool.old) }
    ensures pool_after { pool.new ≡ made method pool.old }
{
    if salt_pool::make(method, pool) {
        return 0;
    }
    SETTINGS
}

// ---- sealing

// Seals the head of a request to the front of the lent buffer and begins its stream. The answer is the number of bytes.
pub fn relay_stream_seal_request(
    method: u64,
    key: &[u8],
    salt: &[u8],
    clock: u64,
    address: &[u8],
    padding: usize,
    payload: &[u8],
    out: &mut [u8],
    stream: &mut [u64],
    answer: &mut [u64],
) -> u64
    ensures { record { number = result; out = out.new; stream = stream.new; answer = answer.new }
        ≡ seals_request method key.now salt.now clock address.now padding
        payload.now out.old stream.old answer.old }
{
    if !fits(stream.len(), answer.len()) {
        return SETTINGS;
    }
    let sealed = stream_seal_heads::seal_request(
        method, key, salt, clock, address, padding, payload, out,
    );
    write_sealed(sealed, stream, answer)
}

// Seals the head of a response, with its first payload, to the front of the lent buffer and begins its stream.
pub fn relay_stream_seal_response(
    method: u64,
    key: &[u8],
    salt: &[u8],
    request_salt: &[u8],
    clock: u64,
    payload: &[u8],
    out: &mut [u8],
    stream: &mut [u64],
    answer: &mut [u64],
) -> u64
    ensures { record { number = result; out = out.new; stream = stream.new; answer = answer.new }
        ≡ seals_response method key.now salt.now request_salt.now clock
        payload.now out.old stream.old answer.old }
{
    if !fits(stream.len(), answer.len()) {
        return SETTINGS;
    }
    let sealed = stream_seal_heads::seal_response(
        method,
        key,
        salt,
        request_salt,
        clock,
        payload,
        out,
    );
    write_sealed(sealed, stream, answer)
}

// Seals a length with its payload to the front of the lent buffer and moves the stream two counters further.
pub fn relay_stream_seal_chunk(
    stream: &mut [u64],
    payload: &[u8],
    out: &mut [u8],
    answer: &mut [u64],
) -> u64
    ensures { record { number = result; out = out.new; stream = stream.new; answer = answer.new }
        ≡ seals_chunk stream.old payload.now out.old answer.old }
{
    seal_on(framing_of(method_in(stream)), stream, payload, out, answer)
}

// ---- heads

// Opens the front of a request's head, its salt and its fixed header, and begins its stream, which has the variable header next. Its
// salt enters the pool.
pub fn relay_stream_open_request(
    method: u64,
    key: &[u8],
    clock: u64,
    bytes: &[u8],
    pool: &mut [u64],
    stream: &mut [u64],
    answer: &mut [u64],
) -> u64
    ensures { record { number = result; pool = pool.new; stream = stream.new; answer = answer.new }
        ≡ opens_request method key.now clock bytes.now pool.old stream.old
        answer.old }
{
    if !fits(stream.len(), answer.len()) {
        return SETTINGS;
    }
    let opened = stream_open_request::open_request(method, key, clock, bytes, pool);
    write_request(opened, stream, answer)
}

// Opens the variable header of a request to the front of the lent buffer, on the stream that its front began.
pub fn relay_stream_open_variable(
    stream: &mut [u64],
    bytes: &[u8],
    out: &mut [u8],
    answer: &mut [u64],
) -> u64
    ensures { record { number = result; out = out.new; stream = stream.new; answer = answer.new }
        ≡ opens_variable stream.old bytes.now out.old answer.old }
{
    if answer.len() != ANSWER || !is_receiver(stream) {
        return SETTINGS;
    }
    let step = stream_open_variable::open_variable(receiver_in(stream), bytes, out);
    write_variable(step, stream, answer)
}

// Opens the head of a response to the request of a salt, and begins its stream. Its first payload is the next step's.
pub fn relay_stream_open_response(
    method: u64,
    key: &[u8],
    clock: u64,
    request_salt: &[u8],
    bytes: &[u8],
    stream: &mut [u64],
    answer: &mut [u64],
) -> u64
    ensures { record { number = result; stream = stream.new; answer = answer.new }
        ≡ opens_response method key.now clock request_salt.now bytes.now
        stream.old answer.old }
{
    if !fits(stream.len(), answer.len()) {
        return SETTINGS;
    }
    let opened = stream_open_response::open_response(method, key, clock, request_salt, bytes);
    write_response(opened, stream, answer)
}

// ---- steps

// Opens the next piece of a stream: a length, or a payload to the front of the lent buffer.
pub fn relay_stream_open_chunk(
    stream: &mut [u64],
    bytes: &[u8],
    out: &mut [u8],
    answer: &mut [u64],
) -> u64
    ensures { record { number = result; out = out.new; stream = stream.new; answer = answer.new }
        ≡ opens_chunk stream.old bytes.now out.old answer.old }
{
    open_on(framing_of(method_in(stream)), stream, bytes, out, answer)
}
