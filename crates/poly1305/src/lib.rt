// Poly1305 (RFC 8439, section 2.5), and the tag that section 2.8 makes with it. Nothing that is secret is a condition or a place.
#![tactic(auto)]

ghost use Rattle.std.specs.Prelude.{◌≡◌, ◌+◌, ◌^◌, drop};
ghost use Rattle.octets.specs.Numbers.{le, to_le};
ghost use Rattle.poly1305.specs.Limbs.{Below, Loose, value, masked as masked_of};
ghost use Rattle.poly1305.specs.Poly1305.{mod_p, clamp, mac as mac_of, mac_data};

use limbs::Limbs;

mod blocks;
mod limbs;

// The bits of w that m has.
fn masked(w: u64, m: u64) -> u64
    ensures { result ≡ masked_of w m }
{
    w & m
}

// r: the first half of the one-time key, with 22 of its bits cleared.
fn clamped(key: &[u8]) -> Limbs
    ensures below { Below (2 ^ 26) result }
    ensures result_value { value result ≡ clamp (le 16 key.now) }
{
    limbs::from_words(
        masked(blocks::read_u64(key, 0), 0x0fff_fffc_0fff_ffff),
        masked(blocks::read_u64(key, 8), 0x0fff_fffc_0fff_fffc),
        0,
    )
}

// s: the second half of the one-time key.
fn second_half(key: &[u8]) -> Limbs
    ensures below { Below (2 ^ 26) result }
    ensures result_value { value result ≡ le 16 (drop 16 key.now) }
{
    limbs::from_words(blocks::read_u64(key, 16), blocks::read_u64(key, 24), 0)
}

// The tag: the accumulator modulo the prime plus s, modulo 2^128.
fn finish(a: Limbs, s: Limbs) -> [u8; 16]
    requires loose { Loose a }
    requires below { Below (2 ^ 26) s }
    ensures { result ≡ to_le 16 (mod_p (value a) + value s) }
{
    let sum = limbs::chain(limbs::plus(limbs::reduce(a), s), 0);
    let l = sum.limbs;
    let mut tag = [0u8; 16];
    octets::write_u64_le(&mut tag, 0, limbs::low_word(l));
    octets::write_u64_le(&mut tag, 8, limbs::high_word(l));
    tag
}

// Poly1305 of s under a one-time key of 32 bytes. (A byte that the key lacks counts as 0.)
pub fn mac(key: &[u8], s: &[u8]) -> [u8; 16]
    ensures { result ≡ mac_of key.now s.now }
{
    let a = blocks::all(clamped(key), s);
    finish(a, second_half(key))
}

// The tag of a ciphertext with no additional data, under a one-time key of 32 bytes.
pub fn aead_mac(key: &[u8], c: &[u8]) -> [u8; 16]
    ensures { result ≡ mac_of key.now (mac_data c.now) }
{
    let a = blocks::all_of_aead(clamped(key), c);
    finish(a, second_half(key))
}
