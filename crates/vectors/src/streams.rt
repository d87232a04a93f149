// Calls about streams, each on the eight words of a stream. Each answers 0 or the number of a refusal, and writes its values into an
// answer of 9 words. Calls of one shape stay apart: each is of another function.
ghost use Rattle.std.specs.Prelude.{◌≡◌, length};

use crate::case::{CLOCK, DATA, KEY, METHOD, OTHER, SALT, field, number, size};
use crate::ciphers::refused_unless;
use protocol::Refusal;
use stream_answers::{write_request, write_response, write_sealed, write_step, write_variable};
use stream_seal::Sender;

// The kinds of calls.
const SEAL_REQUEST: u64 = 32;

const SEAL_RESPONSE: u64 = 33;

const SEAL_CHUNK: u64 = 34;

const OPEN_REQUEST: u64 = 35;

const OPEN_RESPONSE: u64 = 36;

const MAKE: u64 = 38;

const OPEN_VARIABLE: u64 = 39;

// The number of a request that is sealed.
const PADDING: usize = 80;

fn seal_request(c: &[u8], out: &mut [u8]) -> Result<(usize, Sender), Refusal> {
    stream_seal_heads::seal_request(
        number(c, METHOD),
        field(c, KEY),
        field(c, SALT),
        number(c, CLOCK),
        field(c, OTHER),
        size(c, PADDING),
        field(c, DATA),
        out,
    )
}

fn seal_response(c: &[u8], out: &mut [u8]) -> Result<(usize, Sender), Refusal> {
    stream_seal_heads::seal_response(
        number(c, METHOD),
        field(c, KEY),
        field(c, SALT),
        field(c, OTHER),
        number(c, CLOCK),
        field(c, DATA),
        out,
    )
}

fn seal(c: &[u8], kind: u64, stream: &[u64], out: &mut [u8]) -> Result<(usize, Sender), Refusal>
    requires { length stream.now ≡ 8 }
{
    if kind == SEAL_REQUEST {
        return seal_request(c, out);
    }
    if kind == SEAL_RESPONSE {
        return seal_response(c, out);
    }
    stream_seal::seal_chunk(words::sender_in(stream), field(c, DATA), out)
}

fn open_request(c: &[u8], pool: &mut [u64], stream: &mut [u64], answer: &mut [u64]) -> u64
    requires stream_len { length stream.old ≡ 8 }
    requires answer_len { length answer.old ≡ 9 }
{
    let opened = stream_open_request::open_request(
        number(c, METHOD),
        field(c, KEY),
        number(c, CLOCK),
        field(c, DATA),
        pool,
    );
    write_request(opened, stream, answer)
}

fn open_variable(c: &[u8], out: &mut [u8], stream: &mut [u64], answer: &mut [u64]) -> u64
    requires stream_len { length stream.old ≡ 8 }
    requires answer_len { length answer.old ≡ 9 }
{
    let step = stream_open_variable::open_variable(words::receiver_in(stream), field(c, DATA), out);
    write_variable(step, stream, answer)
}

fn open_response(c: &[u8], stream: &mut [u64], answer: &mut [u64]) -> u64
    requires stream_len { length stream.old ≡ 8 }
    requires answer_len { length answer.old ≡ 9 }
{
    let opened = stream_open_response::open_response(
        number(c, METHOD),
        field(c, KEY),
        number(c, CLOCK),
        field(c, SALT),
        field(c, DATA),
    );
    write_response(opened, stream, answer)
}

fn open_chunk(c: &[u8], out: &mut [u8], stream: &mut [u64], answer: &mut [u64]) -> u64
    requires stream_len { length stream.old ≡ 8 }
    requires answer_len { length answer.old ≡ 9 }
{
    let step = stream_open::open_chunk(words::receiver_in(stream), field(c, DATA), out);
    write_step(step, stream, answer)
}

fn make(c: &[u8], pool: &mut [u64]) -> u64 {
    refused_unless(salt_pool::make(number(c, METHOD), pool))
}

pub(crate) fn call(
    c: &[u8],
    kind: u64,
    pool: &mut [u64],
    out: &mut [u8],
    stream: &mut [u64],
    answer: &mut [u64],
) -> u64
    requires stream_len { length stream.old ≡ 8 }
    requires answer_len { length answer.old ≡ 9 }
{
    if kind <= SEAL_CHUNK {
        return write_sealed(seal(c, kind, stream, out), stream, answer);
    }
    if kind == OPEN_REQUEST {
        return open_request(c, pool, stream, answer);
    }
    if kind == OPEN_RESPONSE {
        return open_response(c, stream, answer);
    }
    if kind == MAKE {
        return make(c, pool);
    }
    if kind == OPEN_VARIABLE {
        return open_variable(c, out, stream, answer);
    }
    open_chunk(c, out, stream, answer)
}
