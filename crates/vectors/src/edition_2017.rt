// Calls of the 2017 edition: about datagrams, and about streams on the eight words of each. Each answers 0 or the number of a refusal,
// and writes its values into an answer of 9 words. Calls of one shape stay apart: each is of another function.
use crate::case::{DATA, KEY, METHOD, SALT, field, number};
use crate::memory::set;
use sip004_stream::framing_of;
use stream_answers::{open_on, seal_on, write_receiver, write_sender};
use words::method_in;

// The kinds of calls.
const SEAL_DATAGRAM: u64 = 48;

const OPEN_DATAGRAM: u64 = 49;

const BEGIN_SEALING: u64 = 50;

const BEGIN_OPENING: u64 = 51;

const SEAL_CHUNK: u64 = 52;

// The datagram's length.
fn seal_datagram(c: &[u8], out: &mut [u8], answer: &mut [u64]) -> u64 {
    match sip004::seal(
        number(c, METHOD),
        field(c, KEY),
        field(c, SALT),
        field(c, DATA),
        out,
    ) {
        Ok(n) => {
            set(answer, 0, n as u64);
            0
        }
        Err(r) => r.number(),
    }
}

// The length of what was sealed.
fn open_datagram(c: &[u8], out: &mut [u8], answer: &mut [u64]) -> u64 {
    match sip004::open(number(c, METHOD), field(c, KEY), field(c, DATA), out) {
        Ok(n) => {
            set(answer, 0, n as u64);
            0
        }
        Err(r) => r.number(),
    }
}

fn begin_sealing(c: &[u8], stream: &mut [u64]) -> u64 {
    write_sender(
        sip004_stream::begin_seal(number(c, METHOD), field(c, KEY), field(c, SALT)),
        stream,
    )
}

fn begin_opening(c: &[u8], stream: &mut [u64]) -> u64 {
    write_receiver(
        sip004_stream::begin_open(number(c, METHOD), field(c, KEY), field(c, SALT)),
        stream,
    )
}

fn seal_chunk(c: &[u8], out: &mut [u8], stream: &mut [u64], answer: &mut [u64]) -> u64 {
    seal_on(
        framing_of(method_in(stream)),
        stream,
        field(c, DATA),
        out,
        answer,
    )
}

fn open_chunk(c: &[u8], out: &mut [u8], stream: &mut [u64], answer: &mut [u64]) -> u64 {
    open_on(
        framing_of(method_in(stream)),
        stream,
        field(c, DATA),
        out,
        answer,
    )
}

pub(crate) fn call(
    c: &[u8],
    kind: u64,
    out: &mut [u8],
    stream: &mut [u64],
    answer: &mut [u64],
) -> u64 {
    match kind {
        SEAL_DATAGRAM => seal_datagram(c, out, answer),
        OPEN_DATAGRAM => open_datagram(c, out, answer),
        BEGIN_SEALING => begin_sealing(c, stream),
        BEGIN_OPENING => begin_opening(c, stream),
        SEAL_CHUNK => seal_chunk(c, out, stream, answer),
        _ => open_chunk(c, out, stream, answer),
    }
}
