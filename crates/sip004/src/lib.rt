// The 2017 edition of Shadowsocks (SIP004): its AES methods and its subkeys. Datagrams are in datagram.rt.
#![tactic(auto)]

ghost use Rattle.std.specs.Prelude.{◌≡◌, ◌≤◌, length};
ghost use Rattle.octets.specs.Buffers.{put};
ghost use Rattle.sip004.specs.Method.{max_key, aes128, aes192, aes256, method_of, key_fits, settings_fit, key_length};
ghost use Rattle.sip004.specs.Subkey.{subkey};

pub use protocol::MAX_KEY;
use protocol::Refusal;

mod datagram;

pub use datagram::{open, seal};

// A method: its number, and the lengths of its key and salt in bytes.
#[derive(Clone, Copy)]
pub struct Method {
    pub number: u64,
    pub key: usize,
    pub salt: usize,
}

impl Method {
    pub const AES_128_GCM: u64 = 11;

    pub const AES_192_GCM: u64 = 12;

    pub const AES_256_GCM: u64 = 13;

    pub fn aes_128_gcm() -> Self
        ensures { result ≡ aes128 }
    {
        Self {
            number: Self::AES_128_GCM,
            key: 16,
            salt: 16,
        }
    }

    pub fn aes_192_gcm() -> Self
        ensures { result ≡ aes192 }
    {
        Self {
            number: Self::AES_192_GCM,
            key: 24,
            salt: 24,
        }
    }

    pub fn aes_256_gcm() -> Self
        ensures { result ≡ aes256 }
    {
        Self {
            number: Self::AES_256_GCM,
            key: 32,
            salt: 32,
        }
    }

    #[tactic(auto, unfolding(crate::specs::Method::method_of))]
    pub fn numbered(number: u64) -> Option<Method>
        ensures { result ≡ method_of number }
    {
        match number {
            Self::AES_128_GCM => Some(Self::aes_128_gcm()),
            Self::AES_192_GCM => Some(Self::aes_192_gcm()),
            Self::AES_256_GCM => Some(Self::aes_256_gcm()),
            _ => None,
        }
    }
}

// Whether there is a method of this number and the key has its length.
#[tactic(auto, unfolding(crate::specs::Method::key_fits))]
pub fn key_fits(method: u64, key: usize) -> bool
    ensures { result ≡ key_fits method key }
{
    Method::numbered(method).is_some_and(|m| m.key == key)
}

// The same of key and salt.
#[tactic(auto, unfolding(crate::specs::Method::settings_fit))]
pub fn settings_fit(method: u64, key: usize, salt: usize) -> bool
    ensures { result ≡ settings_fit method key salt }
{
    Method::numbered(method).is_some_and(|m| m.key == key && m.salt == salt)
}

// The length of a method's key; 0 where there is no such method.
#[tactic(auto, unfolding(crate::specs::Method::key_length))]
pub fn key_length(method: u64) -> usize
    ensures { result ≡ key_length method }
{
    Method::numbered(method).map_or(0, |m| m.key)
}

// The subkey of a key and a salt, as long as the key, to the front of a lent buffer with room for the longest.
pub fn derive_subkey(key: &[u8], salt: &[u8], out: &mut [u8])
    requires key_len_bound { length key.now ≤ max_key }
    requires max_key_in_bounds { max_key ≤ length out.old }
    ensures { out.new ≡ put out.old 0 (subkey key.now salt.now) }
{
    let n = key.len();
    hkdf::hkdf(salt, key, b"ss-subkey", &mut out[..n]);
}
