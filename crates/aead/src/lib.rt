// Authenticated encryption by the cipher of a method, with a 12-byte nonce, a 16-byte tag and no additional data, on lent buffers.
#![tactic(auto)]

ghost use Rattle.std.specs.Prelude.{◌≡◌, cond, ◌++◌, ◌+◌, ◌-◌, ◌<◌, ◌≤◌, length, take, drop};
ghost use Rattle.octets.specs.Buffers.{put};
ghost use Rattle.aes.specs.Keyed.{nk_of};
ghost use Rattle.protocol.specs.declared.Cipher.TheVariants.{AesGcm, ChaChaPoly};
ghost use Rattle.aead.specs.Aead.{tag_length, max_text, text_of, KeyFor, seal_by, authentic_by, opened_by};

use aes::encrypt::Encryptor;
pub use chacha_poly::TAG;
use protocol::Cipher;

// The key is expanded and its tables are made once for both.
fn seal_pair_aes(key: &[u8], first: &[u8], second: &[u8], at: usize, body: &mut [u8])
    requires nonzero { 0 < nk_of (length key.now) }
    requires first_len { length first.now ≡ 12 }
    requires second_len { length second.now ≡ 12 }
    requires tag_length_le_at { tag_length ≤ at }
    requires tag_length_in_bounds { at + tag_length ≤ length body.old }
    requires body_len_bound { length body.old ≤ max_text }
    ensures { body.new
        ≡ seal_by AesGcm key.now first.now (text_of (take at body.old))
        ++ seal_by AesGcm key.now second.now (text_of (drop at body.old)) }
{
    let sbox = aes_tables::sbox();
    let t = aes_tables::mix_table();
    let nk = aes::key::key_words(key.len()).unwrap();
    let words = aes::key::expand(&sbox, key, nk);
    let aes = Encryptor {
        t: &t,
        sbox: &sbox,
        w: &words,
        rounds: nk + 6,
    };
    let mut g = [0u64; 128];
    gcm::write_hash_table(&mut g, &aes);
    gcm::seal_in_place_at(&aes, &g, first, &mut body[..at]);
    gcm::seal_in_place_at(&aes, &g, second, &mut body[at..]);
}

fn seal_pair_chacha(n: usize, key: &[u8], first: &[u8], second: &[u8], at: usize, body: &mut [u8])
    requires tag_length_le_at { tag_length ≤ at }
    requires tag_length_in_bounds { at + tag_length ≤ length body.old }
    ensures { body.new
        ≡ seal_by (ChaChaPoly n) key.now first.now (text_of (take at body.old))
        ++ seal_by (ChaChaPoly n) key.now second.now (text_of (drop at body.old)) }
{
    chacha_poly::seal_in_place(n, key, first, &mut body[..at]);
    chacha_poly::seal_in_place(n, key, second, &mut body[at..]);
}

// Seals two texts in place under one key, the first up to a place and the second from there on; the last bytes of each are room
// for its tag.
pub fn seal_pair(
    cipher: Cipher,
    key: &[u8],
    first: &[u8],
    second: &[u8],
    at: usize,
    body: &mut [u8],
)
    requires key_for { KeyFor cipher (length key.now) }
    requires first_len { length first.now ≡ 12 }
    requires second_len { length second.now ≡ 12 }
    requires tag_length_le_at { tag_length ≤ at }
    requires tag_length_in_bounds { at + tag_length ≤ length body.old }
    requires body_len_bound { length body.old ≤ max_text }
    ensures { body.new
        ≡ seal_by cipher key.now first.now (text_of (take at body.old))
        ++ seal_by cipher key.now second.now (text_of (drop at body.old)) }
{
    match cipher {
        Cipher::AesGcm => seal_pair_aes(key, first, second, at, body),
        Cipher::ChaChaPoly(n) => seal_pair_chacha(n, key, first, second, at, body),
    }
}

fn open_aes(key: &[u8], nonce: &[u8], s: &[u8], out: &mut [u8]) -> bool
    requires nonzero { 0 < nk_of (length key.now) }
    requires nonce_len { length nonce.now ≡ 12 }
    requires tag_length_in_bounds { tag_length ≤ length s.now }
    requires s_len_bound { length s.now ≤ max_text }
    requires tag_length_in_bounds_2 { length s.now - tag_length ≤ length out.old }
    ensures value { result ≡ authentic_by AesGcm key.now nonce.now s.now }
    ensures out_after { out.new
        ≡ cond result (put out.old 0 (opened_by AesGcm key.now nonce.now s.now))
        out.old }
{
    match gcm::open(key, nonce, s, out) {
        Ok(()) => true,
        Err(gcm::OpenError::Forged) => false,
        Err(gcm::OpenError::Unlawful) => false,
    }
}

// Opens ciphertext and tag to the front of a buffer: whether the tag is good; if not, nothing is written.
pub fn open(cipher: Cipher, key: &[u8], nonce: &[u8], s: &[u8], out: &mut [u8]) -> bool
    requires key_for { KeyFor cipher (length key.now) }
    requires nonce_len { length nonce.now ≡ 12 }
    requires tag_length_in_bounds { tag_length ≤ length s.now }
    requires s_len_bound { length s.now ≤ max_text }
    requires tag_length_in_bounds_2 { length s.now - tag_length ≤ length out.old }
    ensures value { result ≡ authentic_by cipher key.now nonce.now s.now }
    ensures out_after { out.new
        ≡ cond result (put out.old 0 (opened_by cipher key.now nonce.now s.now))
        out.old }
{
    match cipher {
        Cipher::AesGcm => open_aes(key, nonce, s, out),
        Cipher::ChaChaPoly(n) => chacha_poly::open(n, key, nonce, s, out),
    }
}
