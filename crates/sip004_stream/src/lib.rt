// Streams of the 2017 edition of Shadowsocks (SIP004): begun with a salt that the host carries, and then chunks, which are both
// editions' code, under this edition's framing.
#![tactic(auto)]

ghost use Rattle.std.specs.Prelude.{◌≡◌, ◌≤◌, length};
ghost use Rattle.sip004.specs.Method.{max_key};
ghost use Rattle.sip004_stream.specs.Streams.{framing_of, subkey_of, sender_begun, receiver_begun};

use protocol::{Cipher, MAX_KEY, Refusal};
use stream_open::{Receiver, Turn};
use stream_pieces::{Framing, Subkey, subkey_words};
use stream_seal::Sender;

// The longest payload of a chunk: the two highest bits of a length are zero.
pub const MAX_PAYLOAD: usize = 16383;

// The counter of a stream's first piece.
const FIRST_COUNTER: u64 = 0;

// The framing by the number of a method, without a key where there is no such method. A payload may be empty.
pub fn framing_of(method: u64) -> Framing
    ensures { result ≡ framing_of method }
{
    Framing {
        cipher: Cipher::AesGcm,
        key: sip004::key_length(method),
        least: 0,
        greatest: MAX_PAYLOAD,
    }
}

// ---- beginning

// The subkey of a key and a salt.
fn derive(key: &[u8], salt: &[u8]) -> Subkey
    requires { length key.now ≤ max_key }
    ensures { result ≡ subkey_of key.now salt.now }
{
    let mut s = [0u8; MAX_KEY];
    sip004::derive_subkey(key, salt, &mut s);
    subkey_words(&s)
}

// Begins a stream behind a fresh salt. Refused with 1 (method, or length of key or salt).
#[tactic(auto, unfolding(crate::specs::Streams::sender_begun))]
pub fn begin_seal(method: u64, key: &[u8], salt: &[u8]) -> Result<Sender, Refusal>
    ensures { result ≡ sender_begun method key.now salt.now }
{
    if !sip004::settings_fit(method, key.len(), salt.len()) {
        return Err(Refusal::Settings);
    }
    Ok(Sender {
        method,
        counter: FIRST_COUNTER,
        subkey: derive(key, salt),
    })
}

// The same of a stream that is opened, behind the salt that it came with.
#[tactic(auto, unfolding(crate::specs::Streams::receiver_begun))]
pub fn begin_open(method: u64, key: &[u8], salt: &[u8]) -> Result<Receiver, Refusal>
    ensures { result ≡ receiver_begun method key.now salt.now }
{
    if !sip004::settings_fit(method, key.len(), salt.len()) {
        return Err(Refusal::Settings);
    }
    Ok(Receiver {
        method,
        turn: Turn::Length,
        counter: FIRST_COUNTER,
        subkey: derive(key, salt),
    })
}
