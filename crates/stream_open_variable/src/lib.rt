// Opening the variable header of a request of SIP022, section 3.1, behind its fixed header, whose call handed on the stream.
#![tactic(auto)]

ghost use Rattle.std.specs.Prelude.{◌≡◌, ◌≤◌, length};
ghost use Rattle.stream_pieces.specs.PieceKeys.{keyed_of};
ghost use Rattle.stream_open_variable.specs.Variable.{padding_fits, read_variable, header_answer, settled, header_out, variable_answer, variable_out, variable_next};

use protocol::Refusal;
use socks5::Target;
use stream_heads::MAX_PADDING;
use stream_open::{Receiver, Turn, refused_next};
use stream_pieces::{PieceKey, TAG};

// What a variable header says. A name's place and the payload's are places in its plaintext, which has the length given. So
// many bytes were used.
#[derive(Clone, Copy)]
pub struct VariableHeader {
    pub target: Target,
    pub port: u16,
    pub padding: u16,
    pub payload: usize,
    pub length: u16,
    pub used: usize,
}

// The answer, and the stream as it is then.
#[derive(Clone, Copy)]
pub struct VariableStep {
    pub answer: Result<VariableHeader, Refusal>,
    pub stream: Receiver,
}

// Whether the padding behind an address that ends at a place is lawful. Only a padded request may lack a payload, so the
// header never ends with the padding length.
fn padding_fits(end: usize, plain: &[u8]) -> bool
    ensures { result ≡ padding_fits end plain.now }
{
    let left = plain.len().saturating_sub(end);
    if left <= 2 {
        return false;
    }
    let padding = octets::read_u16_be(plain, end) as usize;
    padding <= MAX_PADDING && padding <= left - 2
}

// What a plaintext of n bytes says, or refusal 5.
fn read_variable(n: u16, plain: &[u8]) -> Result<VariableHeader, Refusal>
    ensures { result ≡ read_variable n plain.now }
{
    let Some(address) = socks5::parse(plain, 0) else {
        return Err(Refusal::Malformed);
    };
    if !padding_fits(address.end, plain) {
        return Err(Refusal::Malformed);
    }
    let padding = octets::read_u16_be(plain, address.end);
    Ok(VariableHeader {
        target: address.target,
        port: address.port,
        padding,
        payload: address.end + 2 + padding as usize,
        length: n,
        used: n as usize + TAG,
    })
}

// A refusal clears what the plaintext has filled.
fn clear_refused(answer: Result<VariableHeader, Refusal>, due: usize, out: &mut [u8])
    requires { due ≤ length out.old }
    ensures { out.new ≡ settled answer due out.old }
{
    if answer.is_err() {
        octets::zero(out, 0, due);
    }
}

// The piece with a variable header of n bytes, with counter 1: refusals 10, 3, 4 and 5, in this order, or the header.
fn open_header(key: PieceKey, n: u16, s: &[u8], out: &mut [u8]) -> Result<VariableHeader, Refusal>
    ensures value { result ≡ header_answer (keyed_of key) n s.now (length out.old) }
    ensures out_after { out.new ≡ header_out (keyed_of key) n s.now out.old }
{
    let due = n as usize;
    if s.len() < due + TAG {
        return Err(Refusal::More((due + TAG) as u64));
    }
    if out.len() < due {
        return Err(Refusal::Room);
    }
    if !key.open_piece(1, &s[..due + TAG], out) {
        return Err(Refusal::NotAuthentic);
    }
    let answer = read_variable(n, &out[..due]);
    clear_refused(answer, due, out);
    answer
}

// A stream that the first call handed on has counter 1; any other, and one at another turn, is refusal 1. One that has ended is
// at no turn, and is 4.
fn open_turn(stream: Receiver, s: &[u8], out: &mut [u8]) -> Result<VariableHeader, Refusal>
    ensures value { result ≡ variable_answer stream s.now (length out.old) }
    ensures out_after { out.new ≡ variable_out stream s.now out.old }
{
    let length = protocol::key_length(stream.method);
    if length == 0 {
        return Err(Refusal::Settings);
    }
    match stream.turn {
        Turn::Variable(n) => {
            if stream.counter != 1 {
                return Err(Refusal::Settings);
            }
            let key = PieceKey {
                cipher: protocol::cipher_of(stream.method),
                subkey: stream.subkey,
                length,
            };
            open_header(key, n, s, out)
        }
        Turn::Length | Turn::Payload(_) => Err(Refusal::Settings),
        Turn::Ended => Err(Refusal::NotAuthentic),
    }
}

// Opens the variable header of a request, which a stream behind its fixed header has next, to the front of the lent buffer.
// Refusals 1, 4 (of a stream that has ended), 10, 3, 4 and 5, in this order. Only 5 writes: it clears what the plaintext has
// filled. 4 and 5 end the stream, and no other refusal moves it: behind 10 the same call is made again, with more bytes.
pub fn open_variable(stream: Receiver, s: &[u8], out: &mut [u8]) -> VariableStep
    ensures answer_value { result.answer ≡ variable_answer stream s.now (length out.old) }
    ensures stream_value { result.stream ≡ variable_next stream result.answer }
    ensures out_after { out.new ≡ variable_out stream s.now out.old }
{
    let answer = open_turn(stream, s, out);
    let stream = match answer {
        Ok(_) => Receiver {
            turn: Turn::Length,
            counter: 2,
            ..stream
        },
        Err(refusal) => refused_next(stream, refusal),
    };
    VariableStep { answer, stream }
}
