// SHA-1 (FIPS 180-4) of byte strings, block by block in place; the last one or two blocks are made in a buffer of 64 bytes.
#![tactic(auto)]

ghost use Rattle.std.specs.Prelude.{◌≡◌, ◌+◌, ◌-◌, ◌*◌, ◌/◌, ◌%◌, ◌^◌, ◌<◌, ◌∷◌, ◌++◌, length, replicate};
ghost use Rattle.octets.specs.Buffers.{put};
ghost use Rattle.octets.specs.Numbers.{to_be};
ghost use Rattle.sha1_compression.specs.Schedule.{block_words};
ghost use Rattle.sha1_compression.specs.Compression.{compressed};
ghost use Rattle.sha1_hash.specs.Hash.{initial_hash, chain, padding, all_blocks, digest_bytes, sha1};

use sha1_compression::{State, compress};

// H(0).
pub fn initial() -> State
    ensures { result ≡ initial_hash }
{
    State {
        a: 0x6745_2301,
        b: 0xefcd_ab89,
        c: 0x98ba_dcfe,
        d: 0x1032_5476,
        e: 0xc3d2_e1f0,
    }
}

// The hash value after the whole blocks of s.
fn whole_blocks(h: State, s: &[u8]) -> State
    ensures { result ≡ chain (length s.now / 64) h s.now }
{
    let mut z = h;
    for block in s.chunks_exact(64) {
        z = compress(z, block);
    }
    z
}

// What is left of a message, a one bit, and zeros up to the end of the block.
fn marked(s: &[u8]) -> [u8; 64]
    requires { length s.now < 64 }
    ensures { result ≡ s.now ++ (0x80 ∷ replicate (63 - length s.now) 0) }
{
    let m = s.len();
    let mut b = [0u8; 64];
    octets::copy(&mut b, 0, s);
    b[m] = 0x80;
    b
}

// The hash value after a last block, which ends with the length in bits.
fn with_length(h: State, b: [u8; 64], bits: u64) -> State
    ensures { result ≡ compressed h (block_words (put b 56 (to_be 8 bits))) }
{
    let mut last = b;
    octets::write_u64_be(&mut last, 56, bits);
    compress(h, &last)
}

// The length of a message in bits, modulo 2^64: blocks of 64 bytes, and n bytes.
fn bit_length(blocks: u64, n: u64) -> u64
    ensures { result ≡ 8 * (64 * blocks + n) % 2 ^ 64 }
{
    (blocks << 6).wrapping_add(n) << 3
}

// The hash value of a message of which the first blocks have led to h, and s is left.
pub fn finish(h: State, blocks: u64, s: &[u8]) -> State
    ensures { result ≡ all_blocks h (s.now ++ padding (64 * blocks + length s.now)) }
{
    let at = s.len() / 64 * 64;
    let z = whole_blocks(h, s);
    let bits = bit_length(blocks, s.len() as u64);
    let b = marked(&s[at..]);
    if s.len() - at < 56 {
        with_length(z, b, bits)
    } else {
        with_length(compress(z, &b), [0u8; 64], bits)
    }
}

// Two words as one number.
fn two(high: u32, low: u32) -> u64
    ensures { to_be 8 result ≡ to_be 4 high ++ to_be 4 low }
{
    high as u64 * 0x1_0000_0000 + low as u64
}

// The bytes of a hash value. The fourth word is stored twice.
pub fn digest(h: State) -> [u8; 20]
    ensures { result ≡ digest_bytes h }
{
    let mut b = [0u8; 20];
    octets::write_u64_be(&mut b, 0, two(h.a, h.b));
    octets::write_u64_be(&mut b, 8, two(h.c, h.d));
    octets::write_u64_be(&mut b, 12, two(h.d, h.e));
    b
}

// The message digest of s.
pub fn hash(s: &[u8]) -> [u8; 20]
    ensures { result ≡ sha1 s.now }
{
    digest(finish(initial(), 0, s))
}
