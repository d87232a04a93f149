// The form with a nonce of 24 bytes (draft-irtf-cfrg-xchacha, section 2.3). (A byte that the nonce lacks counts as 0.)
ghost use Rattle.std.specs.Prelude.{cond, ◌≡◌, ◌-◌, ◌≤◌, length};
ghost use Rattle.octets.specs.Buffers.{put};
ghost use Rattle.chacha_poly.specs.Aead.{tag_length, text_of};
ghost use Rattle.chacha_poly.specs.Extended as spec;

use super::{open, seal_in_place};

// The key: of the nonce, HChaCha reads the first 16 bytes.
fn subkey(n: usize, key: &[u8], nonce: &[u8]) -> [u8; 32]
    ensures { result ≡ spec.subkey n key.now nonce.now }
{
    chacha::hchacha(n, key, nonce)
}

// The nonce of 12 bytes: four zeros and the last 8 bytes of the 24.
fn inner_nonce(nonce: &[u8]) -> [u8; 12]
    ensures { spec.SameWords result (spec.inner_nonce nonce.now) }
{
    let mut b = [0u8; 12];
    octets::write_u32_le(&mut b, 4, octets::read_u32_le(nonce, 16));
    octets::write_u32_le(&mut b, 8, octets::read_u32_le(nonce, 20));
    b
}

// Seals in place, as `seal_in_place`.
pub fn seal_extended_in_place(n: usize, key: &[u8], nonce: &[u8], body: &mut [u8])
    requires { tag_length ≤ length body.old }
    ensures { body.new
        ≡ spec.extended_seal n key.now nonce.now (text_of body.old) }
{
    let k = subkey(n, key, nonce);
    let inner = inner_nonce(nonce);
    seal_in_place(n, &k, &inner, body);
}

// Opens, as `open`.
pub fn open_extended(n: usize, key: &[u8], nonce: &[u8], s: &[u8], out: &mut [u8]) -> bool
    requires tag_length_in_bounds { tag_length ≤ length s.now }
    requires tag_length_in_bounds_2 { length s.now - tag_length ≤ length out.old }
    ensures value { result ≡ spec.extended_authentic n key.now nonce.now s.now }
    ensures out_after { out.new
        ≡ cond result (put out.old 0 (spec.extended_opened n key.now nonce.now s.now))
        out.old }
{
    let k = subkey(n, key, nonce);
    let inner = inner_nonce(nonce);
    open(n, &k, &inner, s, out)
}
