// GCTR of a long text: 32 blocks at once, on planes of bits (crate `aes_sliced`).
ghost use Rattle.std.specs.Prelude.{◌≡◌, ℕ, ◌+◌, ◌*◌, ◌/◌, ◌%◌, ◌^◌, ◌<◌, ◌≤◌, List, map, length, IfSome};
ghost use Rattle.octets.specs.Buffers.{block_count};
ghost use Rattle.octets.specs.Numbers.{to_be};
ghost use Rattle.aes.specs.Words.{bytes, block_bytes};
ghost use Rattle.aes_sliced.specs.Blocks.{words_at};
ghost use Rattle.aes_sliced.specs.Rounds.{Keys};
ghost use Rattle.ctr.specs.Words.{nonce_bytes};
ghost use Rattle.ctr.specs.Gctr.{ciph_at};
ghost use Rattle.ctr.specs.Kept.{Kept};
ghost use Rattle.ctr.specs.Long.{set_block, Batch};

use super::{Nonce, counter_block, xor_block};
use aes::Block;
use aes::encrypt::Encryptor;

// Writes the words of block i.
fn set_block(s: &mut [u32; 128], i: usize, x: Block)
    requires s_len { length s.old ≡ 128 }
    requires i_bound { i < 32 }
    ensures s_len_2 { length s.new ≡ 128 }
    ensures s_after { s.new ≡ set_block s.old i x }
{
    let at = 4 * i;
    s[at] = x.a;
    s[at + 1] = x.b;
    s[at + 2] = x.c;
    s[at + 3] = x.d;
}

// 32 counter blocks, from the counter c on.
fn counter_blocks(s: &mut [u32; 128], n: Nonce, c: u32)
    requires { length s.old ≡ 128 }
    ensures s_len { length s.new ≡ 128 }
    ensures batch { Batch (to_be 16) (nonce_bytes n) c 32 s.new }
{
    for i in 0..32 {
        let x = counter_block(n, c.wrapping_add(i as u32));
        set_block(s, i, x);
    }
}

// Block i.
fn block_of(s: &[u32; 128], i: usize) -> Block
    requires { i < 32 }
    ensures { block_bytes result ≡ words_at i s.now }
{
    let at = 4 * i;
    Block {
        a: s[at],
        b: s[at + 1],
        c: s[at + 2],
        d: s[at + 3],
    }
}

// m blocks of the text from block i on, each ⊕ its block of s.
fn xor_blocks(text: &mut [u8], i: usize, m: usize, s: &[u32; 128])
    requires m_bound { m ≤ 32 }
    requires m_bound_2 { i + m ≤ block_count text.old }
    ensures text_len_unchanged { length text.new ≡ length text.old }
    ensures by_index { (ciph : ℕ → List ℕ) (nonce : List ℕ) (counter : ℕ) (all : List ℕ) (c : ℕ)
        → Batch ciph nonce c 32 s.now
        → Kept ciph nonce counter all text.old c i
        → Kept ciph nonce counter all text.new ((c + m) % 2 ^ 32) (i + m) }
{
    // An index: once a chunks_mut is over, a proof knows the text's length and not its bytes.
    for k in 0..m {
        xor_block(text, 16 * (i + k), block_of(s, k));
    }
}

// GCTR of m blocks from block i on, whose counter is c. The planes stand here: see docs/PROVING.md before this is called from a
// second place.
fn batch(k: &[u32; 1920], rounds: usize, n: Nonce, c: u32, text: &mut [u8], i: usize, m: usize)
    requires rounds_nonzero { 0 < rounds }
    requires rounds_bound { rounds < 15 }
    requires m_bound { m ≤ 32 }
    requires m_bound_2 { i + m ≤ block_count text.old }
    ensures text_len_unchanged { length text.new ≡ length text.old }
    ensures by_index { (w : List ℕ) (counter : ℕ) (all : List ℕ)
        → Keys (map bytes w) rounds k.now
        → Kept (ciph_at rounds w) (nonce_bytes n) counter all text.old c i
        → Kept (ciph_at rounds w) (nonce_bytes n) counter all text.new ((c + m) % 2 ^ 32) (i + m) }
{
    let mut s = [0u32; 128];
    counter_blocks(&mut s, n, c);
    aes_sliced::cipher(&mut s, k, rounds);
    xor_blocks(text, i, m, &s);
}

// So many blocks go into the next batch, where so many are left and so many are done; none where the T-table does the rest in
// less time. Here alone it is decided. With AES-128 a batch takes as long as 16 blocks from the table, whether it is full or not,
// and the masks, made before the first one, as long as 5 more (docs/PERFORMANCE.md).
fn batch_size(left: usize, done: usize) -> Option<usize>
    ensures { IfSome result (λ m. (0 < m) × (m ≤ 32) × (m ≤ left)) }
{
    let least = if done == 0 { 21 } else { 17 };
    if left < least {
        return None;
    }
    if left < 32 {
        return Some(left);
    }
    Some(32)
}

// GCTR of the first blocks of the text, and how many they are: all that are worth a batch.
pub fn batches(aes: &Encryptor<'_>, n: Nonce, counter: u32, text: &mut [u8]) -> usize
    ensures { Kept (ciph_at aes.now.rounds aes.now.w.now) (nonce_bytes n) counter text.old text.new ((counter + result) % 2 ^ 32) result }
{
    let blocks = (text.len() + 15) / 16;
    let mut next = batch_size(blocks, 0);
    if next.is_none() {
        return 0;
    }
    let mut k = [0u32; 1920];
    aes_sliced::masks(&mut k, aes.w, aes.rounds);
    let mut c = counter;
    let mut i = 0;
    while let Some(m) = next {
        batch(&k, aes.rounds, n, c, text, i, m);
        c = c.wrapping_add(m as u32);
        i += m;
        next = batch_size(blocks - i, i);
    }
    i
}
