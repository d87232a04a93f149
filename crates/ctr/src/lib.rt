// AES in counter mode: GCTR of SP 800-38D, in place. The counter block is a 12-byte nonce, as three words, and a 32-bit
// big-endian counter that wraps.
#![tactic(auto)]

ghost use Rattle.std.specs.Prelude.{◌≡◌, ℕ, ◌+◌, ◌%◌, ◌^◌, ◌<◌, ◌≤◌, List, ◌++◌, length, take, drop};
ghost use Rattle.octets.specs.Buffers.{block_count, put, ◌⊞◌};
ghost use Rattle.octets.specs.Numbers.{to_be};
ghost use Rattle.aes.specs.Keyed.{lawful};
ghost use Rattle.aes.specs.Words.{bytes, block_bytes};
ghost use Rattle.ctr.specs.Words.{nonce_bytes};
ghost use Rattle.ctr.specs.Gctr.{gctr as gctr_of, ciph_at, counter_block, aes_ctr};
ghost use Rattle.ctr.specs.Kept.{Kept};

use aes::Block;
use aes::encrypt::Encryptor;

mod long;

// The nonce as the first three words of a counter block.
#[derive(Clone, Copy)]
pub struct Nonce {
    pub a: u32,
    pub b: u32,
    pub c: u32,
}

pub fn read_nonce(s: &[u8]) -> Nonce
    requires { length s.now ≡ 12 }
    ensures { nonce_bytes result ≡ s.now }
{
    Nonce {
        a: octets::read_u32_le(s, 0),
        b: octets::read_u32_le(s, 4),
        c: octets::read_u32_le(s, 8),
    }
}

// The counter's bytes, the highest first, as a word whose first byte is lowest.
fn swapped(x: u32) -> u32
    ensures { bytes result ≡ to_be 4 x }
{
    x.swap_bytes()
}

fn counter_block(n: Nonce, counter: u32) -> Block
    ensures { block_bytes result ≡ bytes n.a ++ (bytes n.b ++ (bytes n.c ++ to_be 4 counter)) }
{
    Block {
        a: n.a,
        b: n.b,
        c: n.c,
        d: swapped(counter),
    }
}

// The counter's part of inc32: one up, modulo 2^32.
fn inc32(c: u32) -> u32
    ensures { result ≡ (c + 1) % 2 ^ 32 }
{
    c.wrapping_add(1)
}

// The last, short block.
fn xor_tail(text: &mut [u8], at: usize, k: Block)
    requires { at ≤ length text.old }
    ensures { text.new ≡ put text.old at (drop at text.old ⊞ block_bytes k) }
{
    let mut stream = [0u8; 16];
    aes::write_block(&mut stream, 0, k);
    octets::xor_into(&mut text[at..], &stream);
}

// The block at a place, which may be short, ⊕ k.
fn xor_block(text: &mut [u8], at: usize, k: Block)
    requires { at ≤ length text.old }
    ensures { text.new ≡ put text.old at (take 16 (drop at text.old) ⊞ block_bytes k) }
{
    if 16 <= text.len() - at {
        let x = aes::read_block(text, at);
        aes::write_block(text, at, aes::add(x, k));
    } else {
        xor_tail(text, at, k);
    }
}

// GCTR of what is left of a text from block i on, whose counter is c, block by block.
fn rest(aes: &Encryptor<'_>, n: Nonce, c: u32, text: &mut [u8], i: usize)
    requires { i ≤ block_count text.old }
    ensures { (counter : ℕ) (all : List ℕ)
        → Kept (ciph_at aes.now.rounds aes.now.w.now) (nonce_bytes n) counter all text.old c i
        → text.new ≡ gctr_of (ciph_at aes.now.rounds aes.now.w.now) (counter_block (nonce_bytes n) counter) all }
{
    let blocks = (text.len() + 15) / 16;
    let mut e = c;
    // An index: once a chunks_mut is over, a proof knows the text's length and not its bytes.
    for j in i..blocks {
        let k = aes.cipher(counter_block(n, e));
        xor_block(text, 16 * j, k);
        e = inc32(e);
    }
}

// GCTR of the text, in place, at an expanded key: in batches, and what is left block by block.
pub fn gctr(aes: &Encryptor<'_>, n: Nonce, counter: u32, text: &mut [u8])
    ensures { text.new
        ≡ gctr_of (ciph_at aes.now.rounds aes.now.w.now) (counter_block (nonce_bytes n) counter) text.old }
{
    let i = long::batches(aes, n, counter, text);
    let c = counter.wrapping_add((i % 0x1_0000_0000) as u32);
    rest(aes, n, c, text, i);
}

// AES in counter mode under a key of 16, 24 or 32 bytes and a nonce of 12, in place. Any other length of either is refused:
// false, and the text stays.
pub fn aes_ctr(key: &[u8], nonce: &[u8], counter: u32, text: &mut [u8]) -> bool
    ensures value { result ≡ lawful 12 key.now nonce.now }
    ensures text_after { text.new ≡ aes_ctr key.now nonce.now counter text.old }
{
    let Some(nk) = aes::key::key_words(key.len()) else {
        return false;
    };
    if nonce.len() != 12 {
        return false;
    }
    let sbox = aes_tables::sbox();
    let t = aes_tables::mix_table();
    let w = aes::key::expand(&sbox, key, nk);
    let aes = Encryptor {
        t: &t,
        sbox: &sbox,
        w: &w,
        rounds: nk + 6,
    };
    gctr(&aes, read_nonce(nonce), counter, text);
    true
}
