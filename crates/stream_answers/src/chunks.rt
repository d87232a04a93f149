// Chunks of a stream that a host holds, framed as its edition frames them.
ghost use Rattle.std.specs.Prelude.{◌≡◌, ◌≤◌};
ghost use Rattle.stream_pieces.specs.Framing.{HasCipher};
ghost use Rattle.stream_pieces.specs.Pieces.{max_chunk};
ghost use Rattle.stream_answers.specs.Chunks.{fits as fits_of, not_sealing, seals_chunk, opens_chunk};

use super::{write_sealed, write_step};
use protocol::Refusal;
use stream_open::open_framed;
use stream_pieces::Framing;
use stream_seal::seal_framed;
use words::{ANSWER, ENDED, SEALING, STREAM, is_receiver, receiver_in, sender_in};

// Refusal 1, which stands before every other, by the number that C is given.
pub const SETTINGS: u64 = 1;

// Whether a lent stream and a lent answer have their lengths.
pub fn fits(stream: usize, answer: usize) -> bool
    ensures { result ≡ fits_of stream answer }
{
    stream == STREAM && answer == ANSWER
}

// Why a stream that is not at the turn of sealing is refused.
#[tactic(auto, unfolding(crate::specs::Chunks::not_sealing))]
fn not_sealing(f: Framing, turn: u64, payload: usize) -> Refusal
    ensures { result ≡ not_sealing f turn payload }
{
    if turn != ENDED || f.key == 0 {
        return Refusal::Settings;
    }
    if payload < f.least {
        return Refusal::Empty;
    }
    Refusal::NotAuthentic
}

// Seals a length with its payload to the front of the lent buffer and moves the stream two counters further.
pub fn seal_on(
    f: Framing,
    stream: &mut [u64],
    payload: &[u8],
    out: &mut [u8],
    answer: &mut [u64],
) -> u64
    requires has_cipher { HasCipher f }
    requires greatest_le_max_chunk { f.greatest ≤ max_chunk }
    ensures { record { number = result; out = out.new; stream = stream.new; answer = answer.new }
        ≡ seals_chunk f stream.old payload.now out.old answer.old }
{
    if !fits(stream.len(), answer.len()) {
        return SETTINGS;
    }
    if stream[0] != SEALING {
        return not_sealing(f, stream[0], payload.len()).number();
    }
    let sealed = seal_framed(f, sender_in(stream), payload, out);
    write_sealed(sealed, stream, answer)
}

// Opens the next piece: a length, or a payload to the front of the lent buffer.
pub fn open_on(
    f: Framing,
    stream: &mut [u64],
    bytes: &[u8],
    out: &mut [u8],
    answer: &mut [u64],
) -> u64
    requires { HasCipher f }
    ensures { record { number = result; out = out.new; stream = stream.new; answer = answer.new }
        ≡ opens_chunk f stream.old bytes.now out.old answer.old }
{
    if answer.len() != ANSWER || !is_receiver(stream) {
        return SETTINGS;
    }
    let step = open_framed(f, receiver_in(stream), bytes, out);
    write_step(step, stream, answer)
}
