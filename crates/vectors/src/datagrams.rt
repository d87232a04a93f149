// Calls about datagrams. Each answers 0 or the number of a refusal, and writes its values into an answer of 9 words.
use crate::case::{CLOCK, DATA, KEY, METHOD, OTHER, SALT, field, number, size};
use crate::ciphers::refused_unless;
use crate::memory::{put, set};
use datagram_read::Header;
use datagram_seal::{Sealing, Sender};
use protocol::Refusal;
use session_table::Peer;

// The kinds of calls.
const SEAL: u64 = 16;

const BEGIN: u64 = 17;

const MAKE: u64 = 18;

const OPEN_SERVER: u64 = 19;

// The numbers of calls: of a sending session, and of a caller.
const SIDE: usize = 80;

const ID: usize = 88;

const CLIENT: usize = 96;

const PACKET: usize = 104;

const PADDING: usize = 112;

const FIRST: usize = 80;

const SECOND: usize = 88;

const PORT: usize = 104;

const RETENTION: usize = 80;

fn sender(c: &[u8]) -> Sender {
    words::session_in(&[
        number(c, SIDE),
        number(c, ID),
        number(c, CLIENT),
        number(c, PACKET),
    ])
}

fn seal(c: &[u8], out: &mut [u8]) -> Sealing {
    datagram_seal::seal(
        number(c, METHOD),
        field(c, KEY),
        field(c, SALT),
        sender(c),
        number(c, CLOCK),
        field(c, OTHER),
        size(c, PADDING),
        field(c, DATA),
        out,
    )
}

// The datagram's length, and the sending session.
fn write_sealing(done: Sealing, answer: &mut [u64]) -> u64 {
    put(answer, 1, &words::session_words(done.sender));
    match done.answer {
        Ok(n) => {
            set(answer, 0, n as u64);
            0
        }
        Err(r) => r.number(),
    }
}

fn begun(c: &[u8], table: &[u64]) -> Result<Sender, Refusal> {
    if number(c, SIDE) == 0 {
        return Ok(Sender::client(number(c, ID)));
    }
    reply_session::begin_reply(number(c, ID), number(c, CLIENT), number(c, CLOCK), table)
}

// The sending session.
fn begin(c: &[u8], table: &[u64], answer: &mut [u64]) -> u64 {
    match begun(c, table) {
        Ok(next) => {
            put(answer, 1, &words::session_words(next));
            0
        }
        Err(r) => r.number(),
    }
}

fn make(c: &[u8], table: &mut [u64]) -> u64 {
    refused_unless(session_table::make(number(c, RETENTION), table))
}

fn peer(c: &[u8]) -> Peer {
    Peer {
        first: number(c, FIRST),
        second: number(c, SECOND),
        port: (number(c, PORT) % 0x1_0000) as u16,
    }
}

fn open_server(c: &[u8], table: &mut [u64], out: &mut [u8]) -> Result<Header, Refusal> {
    datagram_open::open_server(
        number(c, METHOD),
        field(c, KEY),
        number(c, CLOCK),
        peer(c),
        field(c, DATA),
        table,
        out,
    )
}

fn open_client(c: &[u8], table: &mut [u64], out: &mut [u8]) -> Result<Header, Refusal> {
    datagram_open::open_client(
        number(c, METHOD),
        field(c, KEY),
        number(c, CLOCK),
        number(c, CLIENT),
        peer(c),
        field(c, DATA),
        table,
        out,
    )
}

// Where the payload begins that is shown of a plaintext.
fn payload_place(plain: &[u8], place: usize) -> usize {
    let shown = datagram_open::payload(plain, place);
    plain.len().saturating_sub(shown.len())
}

// The header, with the place of the payload as it is shown.
fn write_opened(opened: Result<Header, Refusal>, plain: &[u8], answer: &mut [u64]) -> u64 {
    match opened {
        Ok(h) => {
            put(answer, 0, &words::header_words(h));
            set(answer, 8, payload_place(plain, h.payload) as u64);
            0
        }
        Err(r) => r.number(),
    }
}

pub(crate) fn call(
    c: &[u8],
    kind: u64,
    table: &mut [u64],
    out: &mut [u8],
    answer: &mut [u64],
) -> u64 {
    match kind {
        SEAL => write_sealing(seal(c, out), answer),
        BEGIN => begin(c, table, answer),
        MAKE => make(c, table),
        OPEN_SERVER => {
            let opened = open_server(c, table, out);
            write_opened(opened, out, answer)
        }
        _ => {
            let opened = open_client(c, table, out);
            write_opened(opened, out, answer)
        }
    }
}
