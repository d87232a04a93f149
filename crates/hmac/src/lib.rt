// HMAC (RFC 2104) with SHA-1.
#![tactic(auto)]

ghost use Rattle.std.specs.Prelude.{◌≡◌, ◌≤◌, length, replicate};
ghost use Rattle.octets.specs.Buffers.{◌⊞◌};
ghost use Rattle.sha1_hash.specs.Hash.{initial_hash, all_blocks};
ghost use Rattle.hmac.specs.Hmac.{keyed_short, keyed_of, inner_hash, mac_with, hmac as hmac_of};

use sha1_compression::{State, compress};

// A key: the hash values behind its first blocks, inside and outside.
#[derive(Clone, Copy)]
pub struct Keyed {
    pub inner: State,
    pub outer: State,
}

// The hash value behind a block of a repeated byte ⊕ the key.
fn behind_pad(key: &[u8], pad: u8) -> State
    ensures { result ≡ all_blocks initial_hash (replicate 64 pad ⊞ key.now) }
{
    let mut b = [pad; 64];
    octets::xor_into(&mut b, key);
    compress(sha1_hash::initial(), &b)
}

// A key of at most 64 bytes.
fn short_key(key: &[u8]) -> Keyed
    requires { length key.now ≤ 64 }
    ensures { result ≡ keyed_short key.now }
{
    let inner = behind_pad(key, 0x36);
    let outer = behind_pad(key, 0x5c);
    Keyed { inner, outer }
}

// A key of any length.
pub fn key(key: &[u8]) -> Keyed
    ensures { result ≡ keyed_of key.now }
{
    if key.len() <= 64 {
        return short_key(key);
    }
    let d = sha1_hash::hash(key);
    short_key(&d)
}

// The inner hash.
fn inner_hash(k: Keyed, text: &[u8]) -> [u8; 20]
    ensures { result ≡ inner_hash k text.now }
{
    sha1_hash::digest(sha1_hash::finish(k.inner, 1, text))
}

// HMAC of a text under a key that was made ready.
pub fn mac(k: Keyed, text: &[u8]) -> [u8; 20]
    ensures { result ≡ mac_with k text.now }
{
    let d = inner_hash(k, text);
    sha1_hash::digest(sha1_hash::finish(k.outer, 1, &d))
}

// HMAC of a text.
pub fn hmac(secret: &[u8], text: &[u8]) -> [u8; 20]
    ensures { result ≡ hmac_of secret.now text.now }
{
    mac(key(secret), text)
}
