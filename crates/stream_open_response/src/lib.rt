// Opening the head of a response of SIP022, section 3.1.
#![tactic(auto)]

ghost use Rattle.std.specs.Prelude.{◌≡◌, ◌+◌, ◌-◌, ◌<◌, ◌≤◌, length};
ghost use Rattle.stream_pieces.specs.Pieces.{fixed_length, fixed_piece};
ghost use Rattle.stream_pieces.specs.PieceKeys.{keyed_of};
ghost use Rattle.stream_heads.specs.Heads.{front_length};
ghost use Rattle.stream_open_response.specs.Responses.{bound_of, response_at, opened_response};

use protocol::Refusal;
use stream_heads::open_fixed;
use stream_open::{Receiver, Turn};
use stream_pieces::{FIXED, FIXED_PIECE, MAX_FIXED, PieceKey, derive};

// What the head of a response says: its time, the length of its first payload, and how many bytes were used.
#[derive(Clone, Copy)]
pub struct Response {
    pub time: u64,
    pub length: u16,
    pub used: usize,
}

// The fixed header of a response whose salt is as long as the key: refusals 4, 6, 7, 13 and 14, in this order, or what
// it says. Its plaintext fills the lent buffer.
fn open_bound(
    method: u64,
    key: PieceKey,
    clock: u64,
    request_salt: &[u8],
    s: &[u8],
    plain: &mut [u8],
) -> Result<(Response, Receiver), Refusal>
    requires request_salt_len { length request_salt.now ≡ key.length }
    requires plain_len { length plain.old ≡ fixed_length + key.length }
    requires s_len { length s.now ≡ fixed_piece + key.length }
    ensures { result ≡ bound_of method key.subkey (keyed_of key) clock key.length request_salt.now s.now }
{
    let n = key.length;
    let fixed = open_fixed(key, 1, clock, s, plain)?;
    let binding = &plain[9..9 + n];
    if !octets::equal(binding, request_salt) {
        return Err(Refusal::Binding);
    }
    if fixed.length == 0 {
        return Err(Refusal::Empty);
    }
    let head = Response {
        time: fixed.time,
        length: fixed.length,
        used: n + FIXED_PIECE + n,
    };
    let stream = Receiver {
        method,
        turn: Turn::Payload(fixed.length),
        counter: 1,
        subkey: key.subkey,
    };
    Ok((head, stream))
}

// The head of a response, behind refusals 1 and 10.
fn open_response_at(
    method: u64,
    key: PieceKey,
    clock: u64,
    request_salt: &[u8],
    s: &[u8],
) -> Result<(Response, Receiver), Refusal>
    requires request_salt_len { length request_salt.now ≡ key.length }
    requires n_in_bounds { front_length key.length key.length ≤ length s.now }
    ensures { result ≡ response_at method key.subkey (keyed_of key) clock key.length request_salt.now s.now }
{
    let mut plain = [0u8; MAX_FIXED];
    let n = key.length;
    open_bound(
        method,
        key,
        clock,
        request_salt,
        &s[n..n + FIXED_PIECE + n],
        &mut plain[..FIXED + n],
    )
}

// Opens the head of a response to the request that had this salt: the fixed header only, whose payload is the first step.
// Refusals 1, 10, 4, 6, 7, 13 and 14 (a payload of no bytes), in this order. Nothing is written.
pub fn open_response(
    method: u64,
    key: &[u8],
    clock: u64,
    request_salt: &[u8],
    s: &[u8],
) -> Result<(Response, Receiver), Refusal>
    ensures { result ≡ opened_response method key.now clock request_salt.now s.now }
{
    let n = protocol::salt_length(method);
    if !protocol::key_fits(method, key.len()) || request_salt.len() != n {
        return Err(Refusal::Settings);
    }
    let due = n + FIXED_PIECE + n;
    if s.len() < due {
        return Err(Refusal::More(due as u64));
    }
    let key = PieceKey {
        cipher: protocol::cipher_of(method),
        subkey: derive(key, &s[..n]),
        length: n,
    };
    open_response_at(method, key, clock, request_salt, s)
}
