// Opening a stream behind its head: its state, and one piece a step, a length and its payload by turns.
#![tactic(auto)]

ghost use Rattle.std.specs.Prelude.{◌≡◌, ◌+◌, length, take};
ghost use Rattle.aead.specs.Aead.{KeyFor};
ghost use Rattle.stream_pieces.specs.Framing.{HasCipher, framing_of};
ghost use Rattle.stream_pieces.specs.Pieces.{tag_length, open_at, last_counter};
ghost use Rattle.stream_open.specs.declared.Turn.TheVariants.{Length, Payload};
ghost use Rattle.stream_open.specs.Steps.{key_in, length_answer, turn_answer, written_by, step_answer, step_out, turn_after, advances, refused_next, step_next};

use protocol::Refusal;
use stream_pieces::{Framing, LAST_COUNTER, LENGTH_PIECE, PieceKey, Subkey, TAG, framing_of};

// What the receiving half of a stream opens next: a request's variable header of so many bytes, a length, a payload of so many
// bytes, or nothing.
#[derive(Clone, Copy)]
pub enum Turn {
    Variable(u16),
    Length,
    Payload(u16),
    Ended,
}

// The receiving half of a stream, behind its head.
#[derive(Clone, Copy)]
pub struct Receiver {
    pub method: u64,
    pub turn: Turn,
    pub counter: u64,
    pub subkey: Subkey,
}

// A piece that was opened: how many bytes were used, and the length that it said or the length of the payload.
#[derive(Clone, Copy)]
pub struct Chunk {
    pub used: usize,
    pub length: u16,
}

// The answer to a step, and the stream as it is then.
#[derive(Clone, Copy)]
pub struct Step {
    pub answer: Result<Chunk, Refusal>,
    pub stream: Receiver,
}

// A length that was opened: refusals 14 and 5, or what it says.
fn length_answer(f: Framing, n: u16) -> Result<Chunk, Refusal>
    ensures { result ≡ length_answer f n }
{
    let read = n as usize;
    if read < f.least {
        return Err(Refusal::Empty);
    }
    if f.greatest < read {
        return Err(Refusal::Malformed);
    }
    Ok(Chunk {
        used: LENGTH_PIECE,
        length: n,
    })
}

// A length: refusals 11, 10, 4, 14 and 5, in this order, or what it says. Nothing is written.
fn open_length(f: Framing, stream: Receiver, s: &[u8], room: usize) -> Result<Chunk, Refusal>
    requires { KeyFor f.cipher f.key }
    ensures { result ≡ turn_answer f Length stream s.now room }
{
    if stream.counter == LAST_COUNTER {
        return Err(Refusal::Counter);
    }
    if s.len() < LENGTH_PIECE {
        return Err(Refusal::More(LENGTH_PIECE as u64));
    }
    let mut text = [0u8; 2];
    let key = PieceKey {
        cipher: f.cipher,
        subkey: stream.subkey,
        length: f.key,
    };
    if !key.open_piece(stream.counter, &s[..LENGTH_PIECE], &mut text) {
        return Err(Refusal::NotAuthentic);
    }
    length_answer(f, octets::read_u16_be(&text, 0))
}

// A payload of n bytes: refusals 1, 11, 10, 3 and 4, in this order, or it is in the buffer.
fn open_payload(
    f: Framing,
    stream: Receiver,
    n: u16,
    s: &[u8],
    out: &mut [u8],
) -> Result<Chunk, Refusal>
    requires { KeyFor f.cipher f.key }
    ensures value { result ≡ turn_answer f (Payload n) stream s.now (length out.old) }
    ensures out_after { out.new
        ≡ written_by result (Payload n) (open_at (key_in f stream) stream.counter (take (n + tag_length) s.now))
        out.old }
{
    let due = n as usize;
    if f.greatest < due || due < f.least {
        return Err(Refusal::Settings);
    }
    if stream.counter == LAST_COUNTER {
        return Err(Refusal::Counter);
    }
    if s.len() < due + TAG {
        return Err(Refusal::More((due + TAG) as u64));
    }
    if out.len() < due {
        return Err(Refusal::Room);
    }
    let key = PieceKey {
        cipher: f.cipher,
        subkey: stream.subkey,
        length: f.key,
    };
    if !key.open_piece(stream.counter, &s[..due + TAG], out) {
        return Err(Refusal::NotAuthentic);
    }
    Ok(Chunk {
        used: due + TAG,
        length: n,
    })
}

fn open_turn(f: Framing, stream: Receiver, s: &[u8], out: &mut [u8]) -> Result<Chunk, Refusal>
    requires { HasCipher f }
    ensures value { result ≡ step_answer f stream s.now (length out.old) }
    ensures out_after { out.new ≡ step_out f stream s.now out.old }
{
    if f.key == 0 {
        return Err(Refusal::Settings);
    }
    match stream.turn {
        Turn::Length => open_length(f, stream, s, out.len()),
        Turn::Payload(n) => open_payload(f, stream, n, s, out),
        Turn::Ended => Err(Refusal::NotAuthentic),
        Turn::Variable(_) => Err(Refusal::Settings),
    }
}

// ---- the state behind a step

fn turn_after(turn: Turn, n: u16) -> Turn
    ensures { result ≡ turn_after turn n }
{
    match turn {
        Turn::Length => Turn::Payload(n),
        Turn::Payload(_) | Turn::Variable(_) => Turn::Length,
        Turn::Ended => Turn::Ended,
    }
}

// One counter further, at the other turn.
fn advanced(stream: Receiver, n: u16) -> Receiver
    requires { stream.counter ≡ last_counter → ⊥ }
    ensures { result ≡ advances stream n }
{
    Receiver {
        turn: turn_after(stream.turn, n),
        counter: stream.counter + 1,
        ..stream
    }
}

// A refusal ends a stream, or leaves it as it was.
pub fn refused_next(stream: Receiver, refusal: Refusal) -> Receiver
    ensures { result ≡ refused_next refusal stream }
{
    if refusal.ends_stream() {
        return Receiver {
            turn: Turn::Ended,
            ..stream
        };
    }
    stream
}

// Opens the next piece of a stream that is framed so: a length, or a payload to the front of the lent buffer. Refusals 1, 4 (of a
// stream that has ended), 11, 10, 3, 4, 14 (a length under the least) and 5 (one over the greatest), in this order; they write
// nothing, and only 4, 14 and 5 move the stream: they end it.
pub fn open_framed(f: Framing, stream: Receiver, s: &[u8], out: &mut [u8]) -> Step
    requires { HasCipher f }
    ensures answer_value { result.answer ≡ step_answer f stream s.now (length out.old) }
    ensures stream_value { result.stream ≡ step_next stream result.answer }
    ensures out_after { out.new ≡ step_out f stream s.now out.old }
{
    let answer = open_turn(f, stream, s, out);
    let stream = match answer {
        Ok(chunk) => advanced(stream, chunk.length),
        Err(refusal) => refused_next(stream, refusal),
    };
    Step { answer, stream }
}

// Opens the next piece of a stream of SIP022, in which a length of 0 is refused with 14 and none with 5.
pub fn open_chunk(stream: Receiver, s: &[u8], out: &mut [u8]) -> Step
    ensures answer_value { result.answer ≡ step_answer (framing_of stream.method) stream s.now (length out.old) }
    ensures stream_value { result.stream ≡ step_next stream result.answer }
    ensures out_after { out.new ≡ step_out (framing_of stream.method) stream s.now out.old }
{
    open_framed(framing_of(stream.method), stream, s, out)
}
