// What the layers of SIP022 share: methods, refusals, the time rule.
#![tactic(auto)]

ghost use Rattle.std.specs.Prelude.{◌≡◌, ◌≤◌, length};
ghost use Rattle.protocol.specs.Method.{max_key, aes128, aes256, chacha, chacha20, chacha12, chacha8, method_of, key_fits, key_length, salt_length, cipher_of};
ghost use Rattle.protocol.specs.Refusal.{refusal_number, added, ends_stream};
ghost use Rattle.protocol.specs.Subkey.{subkey};
ghost use Rattle.protocol.specs.Time.{time_valid};
ghost use Rattle.octets.specs.Buffers.{put};

// What seals and opens: AES in GCM, or ChaCha of so many double rounds with Poly1305.
#[derive(Clone, Copy)]
pub enum Cipher {
    AesGcm,
    ChaChaPoly(usize),
}

// A method: its number, the lengths of its key and salt in bytes, the rounds of its AES or ChaCha, and its cipher.
#[derive(Clone, Copy)]
pub struct Method {
    pub number: u64,
    pub key: usize,
    pub salt: usize,
    pub rounds: usize,
    pub cipher: Cipher,
}

// The longest key, and so the longest salt and subkey.
pub const MAX_KEY: usize = 32;

impl Method {
    pub const AES_128_GCM: u64 = 1;

    pub const AES_256_GCM: u64 = 2;

    pub const CHACHA20_POLY1305: u64 = 3;

    pub const CHACHA12_POLY1305: u64 = 4;

    pub const CHACHA8_POLY1305: u64 = 5;

    // 2022-blake3-aes-128-gcm.
    pub fn aes_128_gcm() -> Self
        ensures { result ≡ aes128 }
    {
        Self {
            number: Self::AES_128_GCM,
            key: 16,
            salt: 16,
            rounds: 10,
            cipher: Cipher::AesGcm,
        }
    }

    // 2022-blake3-aes-256-gcm.
    pub fn aes_256_gcm() -> Self
        ensures { result ≡ aes256 }
    {
        Self {
            number: Self::AES_256_GCM,
            key: 32,
            salt: 32,
            rounds: 14,
            cipher: Cipher::AesGcm,
        }
    }

    // The sizes of the methods with ChaCha; two rounds are a double round.
    fn chacha_poly1305(number: u64, rounds: usize) -> Self
        ensures { result ≡ chacha number rounds }
    {
        Self {
            number,
            key: 32,
            salt: 32,
            rounds,
            cipher: Cipher::ChaChaPoly(rounds / 2),
        }
    }

    // 2022-blake3-chacha20-poly1305.
    pub fn chacha20_poly1305() -> Self
        ensures { result ≡ chacha20 }
    {
        Self::chacha_poly1305(Self::CHACHA20_POLY1305, 20)
    }

    // 2022-blake3-chacha12-poly1305.
    pub fn chacha12_poly1305() -> Self
        ensures { result ≡ chacha12 }
    {
        Self::chacha_poly1305(Self::CHACHA12_POLY1305, 12)
    }

    // 2022-blake3-chacha8-poly1305.
    pub fn chacha8_poly1305() -> Self
        ensures { result ≡ chacha8 }
    {
        Self::chacha_poly1305(Self::CHACHA8_POLY1305, 8)
    }

    #[tactic(auto, unfolding(crate::specs::Method::method_of))]
    pub fn numbered(number: u64) -> Option<Method>
        ensures { result ≡ method_of number }
    {
        match number {
            Self::AES_128_GCM => Some(Self::aes_128_gcm()),
            Self::AES_256_GCM => Some(Self::aes_256_gcm()),
            Self::CHACHA20_POLY1305 => Some(Self::chacha20_poly1305()),
            Self::CHACHA12_POLY1305 => Some(Self::chacha12_poly1305()),
            Self::CHACHA8_POLY1305 => Some(Self::chacha8_poly1305()),
            _ => None,
        }
    }
}

// Whether there is a method of this number and the key has its length.
#[tactic(auto, unfolding(crate::specs::Method::key_fits))]
pub fn key_fits(method: u64, key: usize) -> bool
    ensures { result ≡ key_fits method key }
{
    Method::numbered(method).is_some_and(|m| m.key == key)
}

// The length of a method's key; 0 where there is no such method.
#[tactic(auto, unfolding(crate::specs::Method::key_length))]
pub fn key_length(method: u64) -> usize
    ensures { result ≡ key_length method }
{
    Method::numbered(method).map_or(0, |m| m.key)
}

// The length of a method's salt; 0 where there is no such method.
#[tactic(auto, unfolding(crate::specs::Method::salt_length))]
pub fn salt_length(method: u64) -> usize
    ensures { result ≡ salt_length method }
{
    Method::numbered(method).map_or(0, |m| m.salt)
}

// The cipher of a method; AES where there is no such method, which no key fits.
#[tactic(auto, unfolding(crate::specs::Method::cipher_of))]
pub fn cipher_of(method: u64) -> Cipher
    ensures { result ≡ cipher_of method }
{
    Method::numbered(method).map_or(Cipher::AesGcm, |m| m.cipher)
}

// Why a call was refused. More carries the number of bytes wanted in all, UnknownSetting the setting's number.
#[derive(Clone, Copy)]
pub enum Refusal {
    Settings,
    Length,
    Room,
    NotAuthentic,
    Malformed,
    WrongType,
    WrongTime,
    Replay,
    Full,
    More(u64),
    Counter,
    Argument,
    Binding,
    Empty,
    UnknownSetting(u64),
}

impl Refusal {
    pub fn number(self) -> u64
        ensures { result ≡ refusal_number self }
    {
        match self {
            Refusal::Settings => 1,
            Refusal::Length => 2,
            Refusal::Room => 3,
            Refusal::NotAuthentic => 4,
            Refusal::Malformed => 5,
            Refusal::WrongType => 6,
            Refusal::WrongTime => 7,
            Refusal::Replay => 8,
            Refusal::Full => 9,
            Refusal::More(_) => 10,
            Refusal::Counter => 11,
            Refusal::Argument => 12,
            Refusal::Binding => 13,
            Refusal::Empty => 14,
            Refusal::UnknownSetting(_) => 15,
        }
    }

    // What a refusal tells beside its number: the bytes wanted in all, or the setting's number; 0 for every other.
    pub fn added(self) -> u64
        ensures { result ≡ added self }
    {
        match self {
            Refusal::More(n) | Refusal::UnknownSetting(n) => n,
            _ => 0,
        }
    }

    // Whether a stream that is refused so has ended.
    pub fn ends_stream(self) -> bool
        ensures { result ≡ ends_stream self }
    {
        matches!(
            self,
            Refusal::NotAuthentic | Refusal::Malformed | Refusal::Empty
        )
    }
}

// Whether a timestamp is within 30 seconds of the clock, on either side.
#[tactic(auto, unfolding(crate::specs::Time::time_valid))]
pub fn time_valid(time: u64, clock: u64) -> bool
    ensures { result ≡ time_valid time clock }
{
    time.abs_diff(clock) <= 30
}

// The subkey of a key and a salt, as long as the key, to the front of a lent buffer with room for the longest.
pub fn derive_subkey(key: &[u8], salt: &[u8], out: &mut [u8])
    requires key_len_bound { length key.now ≤ max_key }
    requires salt_len_bound { length salt.now ≤ max_key }
    requires max_key_in_bounds { max_key ≤ length out.old }
    ensures { out.new ≡ put out.old 0 (subkey key.now salt.now) }
{
    let n = key.len();
    let end = n + salt.len();
    let mut material = [0u8; 64];
    octets::copy(&mut material, 0, key);
    octets::copy(&mut material, n, salt);
    let bytes = blake3::derive_subkey(&material[..end]);
    octets::copy(out, 0, &bytes[..n]);
}
