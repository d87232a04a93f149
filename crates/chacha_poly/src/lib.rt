// ChaCha with Poly1305 (RFC 8439, section 2.8) over the number n of double rounds, with a 12-byte nonce, a 16-byte tag and no additional
// data, on lent buffers. The one-time key and the key stream of a text's first 192 bytes are made at once, in four blocks. Nothing that
// is secret is a condition or a place, up to the verdict on a tag.
#![tactic(auto)]

ghost use Rattle.std.specs.Prelude.{cond, ◌≡◌, ◌-◌, ◌≤◌, length};
ghost use Rattle.octets.specs.Buffers.{put};
ghost use Rattle.chacha.specs.ChaCha.{key_stream};
ghost use Rattle.chacha_poly.specs.Aead as spec;

mod extended;

pub use extended::{open_extended, seal_extended_in_place};

// So many bytes at the end of a sealed text are its tag.
pub const TAG: usize = 16;

// What the sealing and the opening of a text share. Of the first four blocks, the one-time key is in the first.
#[derive(Drop)]
struct Cipher<'a> {
    n: usize,
    key: &'a [u8],
    nonce: &'a [u8],
    four: [u8; 256],
    ghost first_four: { four ≡ key_stream n key.now 0 nonce.now 4 },
}

impl<'a> Cipher<'a> {
    fn new(n: usize, key: &'a [u8], nonce: &'a [u8]) -> Cipher<'a>
        ensures { (result.n ≡ n) × (result.key.now ≡ key.now) × (result.nonce.now ≡ nonce.now) }
    {
        let four = chacha::blocks(n, key, 0, nonce);
        Cipher {
            n,
            key,
            nonce,
            four,
        }
    }

    // The tag of a ciphertext.
    fn tag(&self, c: &[u8]) -> [u8; 16]
        ensures { result ≡ spec.tag self.now.n self.now.key.now self.now.nonce.now c.now }
    {
        poly1305::aead_mac(&self.four[0..32], c)
    }

    // A text, encrypted or decrypted in place.
    fn crypt(&self, text: &mut [u8])
        ensures { text.new ≡ spec.crypt self.now.n self.now.key.now self.now.nonce.now text.old }
    {
        chacha::xor_with_blocks(self.n, self.key, self.nonce, &self.four, text);
    }
}

// Seals in place: the text is all but the last 16 bytes of the lent buffer, which are for the tag.
pub fn seal_in_place(n: usize, key: &[u8], nonce: &[u8], body: &mut [u8])
    requires { spec.tag_length ≤ length body.old }
    ensures { body.new
        ≡ spec.seal n key.now nonce.now (spec.text_of body.old) }
{
    let cipher = Cipher::new(n, key, nonce);
    let (text, tag) = body.split_at_mut(body.len() - TAG);
    cipher.crypt(text);
    tag.copy_from_slice(&cipher.tag(text));
}

// Whether the last 16 bytes are the tag of those before them; only then is the text decrypted, to the front of the lent buffer.
pub fn open(n: usize, key: &[u8], nonce: &[u8], s: &[u8], out: &mut [u8]) -> bool
    requires tag_length_in_bounds { spec.tag_length ≤ length s.now }
    requires tag_length_in_bounds_2 { length s.now - spec.tag_length ≤ length out.old }
    ensures value { result ≡ spec.authentic n key.now nonce.now s.now }
    ensures out_after { out.new
        ≡ cond result (put out.old 0 (spec.opened n key.now nonce.now s.now))
        out.old }
{
    let cipher = Cipher::new(n, key, nonce);
    let (text, tag) = s.split_at(s.len() - TAG);
    let good = octets::equal(&cipher.tag(text), tag);
    if good {
        octets::copy(out, 0, text);
        cipher.crypt(&mut out[..text.len()]);
    }
    good
}
