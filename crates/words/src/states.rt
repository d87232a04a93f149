// The states that a host holds as words. A sending session: side (0 a client's, 1 a server's), own ID, the client's ID, next
// packet ID. A stream: turn, method, counter, the length of the variable header or payload that is next, and the subkey.
ghost use Rattle.std.specs.Prelude.{◌≡◌, length};
ghost use Rattle.words.specs.States.{session_size, stream_size, session_lawful, side_in, session_in, session_words, receiver_lawful, turn_in, method_in, receiver_in, receiver_words, subkey_in, sender_in, sender_words, turn_number, turn_length};

use super::{ENDED, LENGTH_NEXT, PAYLOAD_NEXT, SEALING, SESSION, STREAM, VARIABLE_NEXT};
use datagram_parts::Side;
use stream_open::{Receiver, Turn};
use stream_pieces::Subkey;

// A sending session's side, as C holds it.
const CLIENT: u64 = 0;

const SERVER: u64 = 1;

// The longest variable header or payload.
const MAX_LENGTH: u64 = 65535;

// C lends slices of any length: is_session and is_receiver test it, and the functions behind them ask for it in a clause.

// ---- sending sessions

pub fn is_session(words: &[u64]) -> bool
    ensures { result ≡ session_lawful words.now }
{
    words.len() == SESSION && words[0] <= SERVER
}

fn side_of(side: u64, client: u64) -> Side
    ensures { result ≡ side_in side client }
{
    match side {
        CLIENT => Side::Client,
        _ => Side::Server(client),
    }
}

pub fn session_in(words: &[u64]) -> datagram_seal::Sender
    requires { length words.now ≡ session_size }
    ensures { result ≡ session_in words.now }
{
    datagram_seal::Sender {
        side: side_of(words[0], words[2]),
        id: words[1],
        packet: words[3],
    }
}

pub fn session_words(s: datagram_seal::Sender) -> [u64; SESSION]
    ensures { result ≡ session_words s }
{
    match s.side {
        Side::Client => [CLIENT, s.id, 0, s.packet],
        Side::Server(client) => [SERVER, s.id, client, s.packet],
    }
}

// ---- streams

// The method; 0, which no method has, where there is no such word.
pub fn method_in(words: &[u64]) -> u64
    ensures { result ≡ method_in words.now }
{
    words.get(1).copied().unwrap_or(0)
}

fn subkey_in(words: &[u64]) -> Subkey
    requires { length words.now ≡ stream_size }
    ensures { result ≡ subkey_in words.now }
{
    Subkey {
        a: words[4],
        b: words[5],
        c: words[6],
        d: words[7],
    }
}

// A stream that seals.
pub fn sender_in(words: &[u64]) -> stream_seal::Sender
    requires { length words.now ≡ stream_size }
    ensures { result ≡ sender_in words.now }
{
    stream_seal::Sender {
        method: words[1],
        counter: words[2],
        subkey: subkey_in(words),
    }
}

pub fn sender_words(s: stream_seal::Sender) -> [u64; STREAM]
    ensures { result ≡ sender_words s }
{
    let w = s.subkey;
    [SEALING, s.method, s.counter, 0, w.a, w.b, w.c, w.d]
}

// Whether a stream is at a turn of opening; one that has ended is.
pub fn is_receiver(words: &[u64]) -> bool
    ensures { result ≡ receiver_lawful words.now }
{
    if words.len() != STREAM {
        return false;
    }
    match words[0] {
        PAYLOAD_NEXT | VARIABLE_NEXT => words[3] <= MAX_LENGTH,
        turn => turn <= LENGTH_NEXT,
    }
}

fn turn_in(turn: u64, n: u64) -> Turn
    ensures { result ≡ turn_in turn n }
{
    match turn {
        LENGTH_NEXT => Turn::Length,
        PAYLOAD_NEXT => Turn::Payload((n % 65536) as u16),
        VARIABLE_NEXT => Turn::Variable((n % 65536) as u16),
        _ => Turn::Ended,
    }
}

pub fn receiver_in(words: &[u64]) -> Receiver
    requires { length words.now ≡ stream_size }
    ensures { result ≡ receiver_in words.now }
{
    Receiver {
        method: words[1],
        turn: turn_in(words[0], words[3]),
        counter: words[2],
        subkey: subkey_in(words),
    }
}

fn turn_number(turn: Turn) -> u64
    ensures { result ≡ turn_number turn }
{
    match turn {
        Turn::Length => LENGTH_NEXT,
        Turn::Payload(_) => PAYLOAD_NEXT,
        Turn::Ended => ENDED,
        Turn::Variable(_) => VARIABLE_NEXT,
    }
}

fn turn_length(turn: Turn) -> u64
    ensures { result ≡ turn_length turn }
{
    match turn {
        Turn::Payload(n) | Turn::Variable(n) => n as u64,
        Turn::Length | Turn::Ended => 0,
    }
}

pub fn receiver_words(s: Receiver) -> [u64; STREAM]
    ensures { result ≡ receiver_words s }
{
    let w = s.subkey;
    [
        turn_number(s.turn),
        s.method,
        s.counter,
        turn_length(s.turn),
        w.a,
        w.b,
        w.c,
        w.d,
    ]
}
