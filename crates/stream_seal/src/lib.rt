// The sending half of a stream behind its head: lengths and payloads, sealed one chunk after another.
#![tactic(auto)]

ghost use Rattle.std.specs.Prelude.{◌≡◌, ◌+◌, ◌-◌, ◌<◌, ◌≤◌, length};
ghost use Rattle.aead.specs.Aead.{keyed};
ghost use Rattle.stream_pieces.specs.Framing.{HasCipher};
ghost use Rattle.stream_pieces.specs.PieceKeys.{keyed_of};
ghost use Rattle.stream_pieces.specs.Pieces.{tag_length, length_piece, key_of, max_chunk, last_counter};
ghost use Rattle.stream_seal.specs.Sealing.{chunk, moved as moved_of, sender_key, size_answer, framed_answer, chunk_answer, seal_out};

use protocol::Refusal;
use stream_pieces::{Framing, LAST_COUNTER, LENGTH_PIECE, PieceKey, Subkey, TAG, framing_of};

// The sending half of a stream, behind its head: its method, the counter of its next piece, and its subkey.
#[derive(Clone, Copy)]
pub struct Sender {
    pub method: u64,
    pub counter: u64,
    pub subkey: Subkey,
}

// ---- what is answered

// Refusals 2 and 3, in this order, of a piece of n bytes behind others.
pub fn size_answer(
    greatest: usize,
    n: usize,
    before: usize,
    room: usize,
    stream: Sender,
) -> Result<(usize, Sender), Refusal>
    requires greatest_le_max_chunk { greatest ≤ max_chunk }
    requires before_le_max_chunk { before ≤ max_chunk }
    ensures { result ≡ size_answer greatest n before room stream }
{
    if greatest < n {
        return Err(Refusal::Length);
    }
    let due = before + n + TAG;
    if room < due {
        return Err(Refusal::Room);
    }
    Ok((due, stream))
}

// The stream behind a chunk.
fn behind_chunk(stream: Sender) -> Sender
    requires { stream.counter < last_counter - 1 }
    ensures { result ≡ moved_of stream }
{
    Sender {
        counter: stream.counter + 2,
        ..stream
    }
}

// Refusals 1, 14, 11, 2 and 3, in this order, or how many bytes are due.
fn framed_answer(
    f: Framing,
    stream: Sender,
    payload: usize,
    room: usize,
) -> Result<(usize, Sender), Refusal>
    requires { f.greatest ≤ max_chunk }
    ensures { result ≡ framed_answer f stream payload room }
{
    if f.key == 0 {
        return Err(Refusal::Settings);
    }
    if payload < f.least {
        return Err(Refusal::Empty);
    }
    if LAST_COUNTER - 1 <= stream.counter {
        return Err(Refusal::Counter);
    }
    size_answer(
        f.greatest,
        payload,
        LENGTH_PIECE,
        room,
        behind_chunk(stream),
    )
}

// ---- what is written

// A length with its payload, into a buffer that they fill.
fn write_chunk(body: &mut [u8], key: PieceKey, counter: u64, payload: &[u8])
    requires counter_lt_last_counter { counter < last_counter }
    requires payload_len_bound { length payload.now ≤ max_chunk }
    requires body_len { length body.old ≡ length_piece + length payload.now + tag_length }
    ensures { body.new ≡ chunk (keyed_of key) counter payload.now }
{
    octets::write_u16_be(body, 0, payload.len() as u16);
    octets::copy(body, LENGTH_PIECE, payload);
    key.seal_pair(counter, LENGTH_PIECE, body);
}

// Seals a length with its payload, framed so, to the front of the lent buffer. A refusal writes nothing, and the stream stays as
// it was.
pub fn seal_framed(
    f: Framing,
    stream: Sender,
    payload: &[u8],
    out: &mut [u8],
) -> Result<(usize, Sender), Refusal>
    requires has_cipher { HasCipher f }
    requires greatest_le_max_chunk { f.greatest ≤ max_chunk }
    ensures value { result ≡ framed_answer f stream (length payload.now) (length out.old) }
    ensures out_after { out.new
        ≡ seal_out result (chunk (keyed f.cipher (key_of stream.subkey f.key)) stream.counter payload.now) out.old }
{
    let (n, next) = framed_answer(f, stream, payload.len(), out.len())?;
    let key = PieceKey {
        cipher: f.cipher,
        subkey: stream.subkey,
        length: f.key,
    };
    write_chunk(&mut out[..n], key, stream.counter, payload);
    Ok((n, next))
}

// Seals a length with its payload, which may not be empty, on a stream of SIP022.
pub fn seal_chunk(
    stream: Sender,
    payload: &[u8],
    out: &mut [u8],
) -> Result<(usize, Sender), Refusal>
    ensures value { result ≡ chunk_answer stream (length payload.now) (length out.old) }
    ensures out_after { out.new
        ≡ seal_out result (chunk (sender_key stream) stream.counter payload.now) out.old }
{
    seal_framed(framing_of(stream.method), stream, payload, out)
}
