// Sealing the heads of streams of SIP022, section 3.1: the salt, a piece with the fixed header, and a piece behind it, which is a
// request's variable header or a response's first payload.
#![tactic(auto)]

ghost use Rattle.std.specs.Prelude.{◌≡◌, [], ◌++◌, ◌+◌, ◌≤◌, min, length};
ghost use Rattle.octets.specs.Buffers.{put};
ghost use Rattle.protocol.specs.Method.{max_key, cipher_of};
ghost use Rattle.stream_pieces.specs.Pieces.{tag_length, fixed_length, fixed_piece, seal_at, max_chunk};
ghost use Rattle.stream_pieces.specs.PieceKeys.{keyed_of};
ghost use Rattle.stream_seal.specs.Sealing.{seal_out};
ghost use Rattle.stream_seal_heads.specs.HeadSealing.{fixed_part, variable_part, variable_length, request_at, request, response_of, response, begun, sizes_fit, padding_lawful, request_answer, response_answer};

use protocol::Refusal;
use stream_heads::MAX_PADDING;
use stream_pieces::{FIXED_PIECE, MAX_CHUNK, PieceKey, TAG, derive};
use stream_seal::{Sender, size_answer};

// How many bytes a request's two pieces have more than its variable header.
const OVERHEAD: usize = FIXED_PIECE + TAG;

// ---- what is answered

fn padding_lawful(padding: usize, payload: usize) -> bool
    ensures { result ≡ padding_lawful padding payload }
{
    padding <= MAX_PADDING && (0 < padding || 0 < payload)
}

// The length of the variable header, as far as one byte over the longest.
fn variable_length(address: usize, padding: usize, payload: usize) -> usize
    ensures { result ≡ min (variable_length address padding payload) (max_chunk + 1) }
{
    address
        .saturating_add(2)
        .saturating_add(padding)
        .saturating_add(payload)
        .min(MAX_CHUNK + 1)
}

// Whether the key and a salt have the lengths of the method.
fn sizes_fit(method: u64, key: usize, salt: usize) -> bool
    ensures { result ≡ sizes_fit method key salt }
{
    protocol::key_fits(method, key) && salt == protocol::salt_length(method)
}

// The stream behind a head.
fn begin(method: u64, key: &[u8], salt: &[u8]) -> Sender
    requires key_len_bound { length key.now ≤ max_key }
    requires salt_len_bound { length salt.now ≤ max_key }
    ensures { result ≡ begun method key.now salt.now }
{
    Sender {
        method,
        counter: 2,
        subkey: derive(key, salt),
    }
}

// Refusals 1, 12, 2 and 3, in this order, or how many bytes are due.
fn request_answer(
    method: u64,
    key: &[u8],
    salt: &[u8],
    address: &[u8],
    padding: usize,
    payload: usize,
    room: usize,
) -> Result<(usize, Sender), Refusal>
    ensures { result ≡ request_answer method key.now salt.now address.now padding payload
        room }
{
    if !sizes_fit(method, key.len(), salt.len()) {
        return Err(Refusal::Settings);
    }
    if !socks5::is_address(address) || !padding_lawful(padding, payload) {
        return Err(Refusal::Argument);
    }
    let n = variable_length(address.len(), padding, payload);
    let before = salt.len() + FIXED_PIECE;
    size_answer(MAX_CHUNK, n, before, room, begin(method, key, salt))
}

// Refusals 1, 14, 2 and 3, in this order, or how many bytes are due.
fn response_answer(
    method: u64,
    key: &[u8],
    salt: &[u8],
    binding: &[u8],
    payload: usize,
    room: usize,
) -> Result<(usize, Sender), Refusal>
    ensures { result ≡ response_answer method key.now salt.now binding.now payload room }
{
    if !sizes_fit(method, key.len(), salt.len()) || binding.len() != salt.len() {
        return Err(Refusal::Settings);
    }
    if payload == 0 {
        return Err(Refusal::Empty);
    }
    let before = salt.len() + FIXED_PIECE + binding.len();
    size_answer(MAX_CHUNK, payload, before, room, begin(method, key, salt))
}

// ---- what is written

// Address, padding and payload of a request stand apart: of a struct that borrows them a promise says `header.entry.address.now`.

// The fixed header.
fn write_fixed(out: &mut [u8], kind: u8, clock: u64, binding: &[u8], n: u16)
    requires { fixed_length + length binding.now ≤ length out.old }
    ensures { out.new ≡ put out.old 0 (fixed_part kind clock binding.now n) }
{
    out[0] = kind;
    octets::write_u64_be(out, 1, clock);
    octets::copy(out, 9, binding);
    octets::write_u16_be(out, 9 + binding.len(), n);
}

// The plaintext of a variable header, to a place.
fn write_variable(out: &mut [u8], at: usize, address: &[u8], padding: usize, payload: &[u8])
    requires padding_le_max_chunk { padding ≤ max_chunk }
    requires payload_in_bounds { at + variable_length (length address.now) padding (length payload.now) ≤ length out.old }
    ensures { out.new ≡ put out.old at (variable_part address.now padding payload.now) }
{
    let behind = at + address.len();
    octets::copy(out, at, address);
    octets::write_u16_be(out, behind, padding as u16);
    octets::zero(out, behind + 2, padding);
    octets::copy(out, behind + 2 + padding, payload);
}

// A request's two headers, sealed in the buffer that they fill.
fn seal_request_headers(
    body: &mut [u8],
    key: PieceKey,
    clock: u64,
    address: &[u8],
    padding: usize,
    payload: &[u8],
)
    requires payload_bound { variable_length (length address.now) padding (length payload.now) ≤ max_chunk }
    requires body_len { length body.old
        ≡ fixed_piece + variable_length (length address.now) padding (length payload.now) + tag_length }
    ensures { body.new
        ≡ seal_at (keyed_of key) 0
        (fixed_part 0 clock [] (length (variable_part address.now padding payload.now)))
        ++ seal_at (keyed_of key) 1 (variable_part address.now padding payload.now) }
{
    let v = body.len() - OVERHEAD;
    write_fixed(body, 0, clock, &address[..0], v as u16);
    write_variable(body, FIXED_PIECE, address, padding, payload);
    key.seal_pair(0, FIXED_PIECE, body);
}

// A response's header and first payload, sealed in the buffer that they fill.
fn seal_response_headers(body: &mut [u8], key: PieceKey, clock: u64, binding: &[u8], payload: &[u8])
    requires binding_len_bound { length binding.now ≤ max_key }
    requires payload_len_bound { length payload.now ≤ max_chunk }
    requires body_len { length body.old ≡ fixed_piece + length binding.now + length payload.now + tag_length }
    ensures { body.new
        ≡ seal_at (keyed_of key) 0 (fixed_part 1 clock binding.now (length payload.now))
        ++ seal_at (keyed_of key) 1 payload.now }
{
    let at = FIXED_PIECE + binding.len();
    write_fixed(body, 1, clock, binding, payload.len() as u16);
    octets::copy(body, at, payload);
    key.seal_pair(0, at, body);
}

// The head of a request, of n bytes, to the front of a buffer.
fn write_request(
    out: &mut [u8],
    n: usize,
    key: PieceKey,
    salt: &[u8],
    clock: u64,
    address: &[u8],
    padding: usize,
    payload: &[u8],
)
    requires payload_bound { variable_length (length address.now) padding (length payload.now) ≤ max_chunk }
    requires n_value { n ≡ length salt.now + fixed_piece + variable_length (length address.now) padding (length payload.now) +
        tag_length }
    requires n_in_bounds { n ≤ length out.old }
    ensures { out.new
        ≡ put out.old 0 (request_at (keyed_of key) salt.now clock
        address.now padding payload.now) }
{
    octets::copy(out, 0, salt);
    seal_request_headers(
        &mut out[salt.len()..n],
        key,
        clock,
        address,
        padding,
        payload,
    );
}

// The head of a response with its first payload, of n bytes, to the front of a buffer.
fn write_response(
    out: &mut [u8],
    n: usize,
    key: PieceKey,
    salt: &[u8],
    binding: &[u8],
    clock: u64,
    payload: &[u8],
)
    requires key_len { key.length ≡ length salt.now }
    requires binding_len { length binding.now ≡ length salt.now }
    requires payload_len_bound { length payload.now ≤ max_chunk }
    requires n_value { n ≡ length salt.now + fixed_piece + length binding.now + length payload.now + tag_length }
    requires n_in_bounds { n ≤ length out.old }
    ensures { out.new
        ≡ put out.old 0 (response_of (keyed_of key) salt.now binding.now
        clock payload.now) }
{
    octets::copy(out, 0, salt);
    seal_response_headers(&mut out[salt.len()..n], key, clock, binding, payload);
}

// ---- the whole

// Seals the head of a request to the front of the lent buffer. The address is given as its bytes (RFC 1928), exactly one; the
// time written is the clock. A refusal writes nothing.
pub fn seal_request(
    method: u64,
    key: &[u8],
    salt: &[u8],
    clock: u64,
    address: &[u8],
    padding: usize,
    payload: &[u8],
    out: &mut [u8],
) -> Result<(usize, Sender), Refusal>
    ensures value { result ≡ request_answer method key.now salt.now address.now padding
        (length payload.now) (length out.old) }
    ensures out_after { out.new
        ≡ seal_out result (request (cipher_of method) key.now salt.now clock address.now padding payload.now)
        out.old }
{
    let (n, stream) = request_answer(
        method,
        key,
        salt,
        address,
        padding,
        payload.len(),
        out.len(),
    )?;
    let key = PieceKey {
        cipher: protocol::cipher_of(method),
        subkey: stream.subkey,
        length: salt.len(),
    };
    write_request(out, n, key, salt, clock, address, padding, payload);
    Ok((n, stream))
}

// Seals the head of a response to the request with this salt, with the first payload, which may not be empty, to the front of
// the lent buffer. A refusal writes nothing.
pub fn seal_response(
    method: u64,
    key: &[u8],
    salt: &[u8],
    binding: &[u8],
    clock: u64,
    payload: &[u8],
    out: &mut [u8],
) -> Result<(usize, Sender), Refusal>
    ensures value { result ≡ response_answer method key.now salt.now binding.now
        (length payload.now) (length out.old) }
    ensures out_after { out.new
        ≡ seal_out result (response (cipher_of method) key.now salt.now binding.now clock payload.now)
        out.old }
{
    let (n, stream) = response_answer(method, key, salt, binding, payload.len(), out.len())?;
    let key = PieceKey {
        cipher: protocol::cipher_of(method),
        subkey: stream.subkey,
        length: salt.len(),
    };
    write_response(out, n, key, salt, binding, clock, payload);
    Ok((n, stream))
}
