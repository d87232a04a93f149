// One piece of a stream of SIP022, section 3.1: a text sealed under the stream's subkey and its own counter. A head, a length and a
// payload are pieces; what both directions share of them is here.
#![tactic(auto)]

ghost use Rattle.std.specs.Prelude.{◌≡◌, ◌≤◌, length};
ghost use Rattle.protocol.specs.Method.{max_key};
ghost use Rattle.protocol.specs.Subkey.{subkey as subkey_of};
ghost use Rattle.stream_pieces.specs.Framing.{framing_of};
ghost use Rattle.stream_pieces.specs.Pieces.{nonce as nonce_of, subkey_words, subkey_bytes};

use protocol::{Cipher, MAX_KEY};

mod key;

pub use aead::TAG;
pub use key::PieceKey;

// The longest plaintext of a piece with a length of its own.
pub const MAX_CHUNK: usize = 65535;

// The piece of a length, which has two bytes.
pub const LENGTH_PIECE: usize = 2 + TAG;

// A head's fixed header: type, time and length; a response's has the request's salt more.
pub const FIXED: usize = 11;

pub const FIXED_PIECE: usize = FIXED + TAG;

pub const MAX_FIXED: usize = FIXED + MAX_KEY;

// The counter that is never used.
pub const LAST_COUNTER: u64 = 0xffff_ffff_ffff_ffff;

// How an edition frames the payloads of a stream: its cipher, the length of its key, 0 where there is no such method, and the least
// and the greatest length of a payload. Theorems are said of these four numbers alone (`framing_of`, `framed_answer`, `step_answer`),
// so the key is no Option, and that it is one of the cipher (`HasCipher`) is asked for and no ghost field.
#[derive(Clone, Copy)]
pub struct Framing {
    pub cipher: Cipher,
    pub key: usize,
    pub least: usize,
    pub greatest: usize,
}

// A subkey in four words, its bytes big-endian; one of fewer than 32 bytes has zeros for the last words.
#[derive(Clone, Copy)]
pub struct Subkey {
    pub a: u64,
    pub b: u64,
    pub c: u64,
    pub d: u64,
}

// The framing of SIP022 by the number of a method, without a key where there is no such method.
pub fn framing_of(method: u64) -> Framing
    ensures { result ≡ framing_of method }
{
    Framing {
        cipher: protocol::cipher_of(method),
        key: protocol::key_length(method),
        least: 1,
        greatest: MAX_CHUNK,
    }
}

// The counter in 12 bytes, little-endian.
fn nonce(counter: u64) -> [u8; 12]
    ensures { result ≡ nonce_of counter }
{
    let mut n = [0u8; 12];
    octets::write_u64_le(&mut n, 0, counter);
    n
}

// The words of a subkey.
pub fn subkey_words(s: &[u8]) -> Subkey
    ensures { result ≡ subkey_words s.now }
{
    Subkey {
        a: octets::read_u64_be(s, 0),
        b: octets::read_u64_be(s, 8),
        c: octets::read_u64_be(s, 16),
        d: octets::read_u64_be(s, 24),
    }
}

fn subkey_bytes(w: Subkey) -> [u8; MAX_KEY]
    ensures { result ≡ subkey_bytes w }
{
    let mut s = [0u8; MAX_KEY];
    octets::write_u64_be(&mut s, 0, w.a);
    octets::write_u64_be(&mut s, 8, w.b);
    octets::write_u64_be(&mut s, 16, w.c);
    octets::write_u64_be(&mut s, 24, w.d);
    s
}

// The subkey of a key and a salt.
pub fn derive(key: &[u8], salt: &[u8]) -> Subkey
    requires key_len_bound { length key.now ≤ max_key }
    requires salt_len_bound { length salt.now ≤ max_key }
    ensures { result ≡ subkey_words (subkey_of key.now salt.now) }
{
    let mut s = [0u8; MAX_KEY];
    protocol::derive_subkey(key, salt, &mut s);
    subkey_words(&s)
}
