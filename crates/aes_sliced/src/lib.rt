// AES of 32 blocks at once, on planes of bits (crate `aes_planes`): the words of the blocks are turned into planes, the rounds
// are made of all of them, and the planes are turned back. One batch is 512 bytes. The caller owns the planes and makes the masks
// of the key once; with one call site for each step all of it stands in line there, and the loops over columns become vectors.
#![tactic(auto)]

ghost use Rattle.std.specs.Prelude.{◌≡◌, ℕ, ◌+◌, ◌*◌, ◌<◌, ◌≤◌, List, map, length};
ghost use Rattle.aes.specs.Cipher.{cipher as cipher_of};
ghost use Rattle.aes.specs.Words.{bytes};
ghost use Rattle.aes_planes.specs.State.{block_at, key_at};
ghost use Rattle.aes_sliced.specs.Rounds.{step_of, done_of, Keys};
ghost use Rattle.aes_sliced.specs.Blocks.{add_of, first_of, words_at};
ghost use Rattle.aes_sliced.specs.Masks.{mask_word, mask_bit_of, masks_of};

// All digits are digit b of x.
fn mask(x: u32, b: u32) -> u32
    requires { b < 32 }
    ensures { result ≡ mask_word x b }
{
    0u32.wrapping_sub((x >> b) % 2)
}

fn mask_bit(k: &mut [u32; 1920], w: &[u32; 60], b: u32, words: usize)
    requires k_len { length k.old ≡ 1920 }
    requires b_bound { b < 32 }
    requires words_bound { words ≤ 60 }
    ensures k_len_2 { length k.new ≡ 1920 }
    ensures k_after { k.new ≡ mask_bit_of k.old w.now b words }
{
    let at = 60 * b as usize;
    // An index: once an iter_mut is over that goes beside another iterator, a proof knows the array's length and not its words.
    for i in 0..words {
        k[at + i] = mask(w[i], b);
    }
}

// The masks for n rounds.
pub fn masks(k: &mut [u32; 1920], w: &[u32; 60], n: usize)
    requires k_len { length k.old ≡ 1920 }
    requires n_bound { n < 15 }
    ensures k_len_2 { length k.new ≡ 1920 }
    ensures keys { Keys (map bytes w.now) n k.new }
{
    for b in 0..32 {
        mask_bit(k, w, b, 4 * n + 4);
    }
}

// Round r of n.
fn round(s: &mut [u32; 128], t: &mut [u32; 256], k: &[u32; 1920], n: usize, r: usize)
    requires s_len { length s.old ≡ 128 }
    requires t_len { length t.old ≡ 256 }
    requires n_bound { n < 15 }
    requires r_le_n { r ≤ n }
    ensures s_len_2 { length s.new ≡ 128 }
    ensures t_len_2 { length t.new ≡ 256 }
    ensures by_index { (i : ℕ) → i < 32 → block_at i s.new ≡ step_of n r (key_at i k.now (4 * r)) (block_at i s.old) }
{
    aes_planes::sub::sub_bytes(t, s);
    if r < n {
        aes_planes::mix::mix_columns(s, t, k, r);
    } else {
        aes_planes::mix::last_round(s, t, k, r);
    }
}

pub fn rounds(s: &mut [u32; 128], k: &[u32; 1920], n: usize)
    requires s_len { length s.old ≡ 128 }
    requires n_bound { n < 15 }
    ensures s_len_2 { length s.new ≡ 128 }
    ensures by_index { (w : List (List ℕ)) (i : ℕ) → Keys w n k.now → i < 32 → block_at i s.new ≡ done_of w n n (block_at i s.old) }
{
    let mut t = [0u32; 256];
    for r in 0..n {
        round(s, &mut t, k, n, r + 1);
    }
}

fn add_key(s: &mut [u32; 128], k: &[u32; 1920], i: usize)
    requires s_len { length s.old ≡ 128 }
    requires i_bound { i < 32 }
    ensures s_len_2 { length s.new ≡ 128 }
    ensures s_after { s.new ≡ add_of s.old k.now i 4 }
{
    // An index, for the same reason.
    for j in 0..4 {
        s[4 * i + j] ^= k[60 * i + j];
    }
}

fn first_key(s: &mut [u32; 128], k: &[u32; 1920])
    requires { length s.old ≡ 128 }
    ensures s_len { length s.new ≡ 128 }
    ensures s_after { s.new ≡ first_of s.old k.now 32 }
{
    for i in 0..32 {
        add_key(s, k, i);
    }
}

// The cipher of the blocks whose words s holds.
pub fn cipher(s: &mut [u32; 128], k: &[u32; 1920], n: usize)
    requires s_len { length s.old ≡ 128 }
    requires n_nonzero { 0 < n }
    requires n_bound { n < 15 }
    ensures s_len_2 { length s.new ≡ 128 }
    ensures by_index { (w : List (List ℕ)) (i : ℕ) → Keys w n k.now → i < 32 → words_at i s.new ≡ cipher_of n w (words_at i s.old) }
{
    aes_turn::turn(s);
    first_key(s, k);
    rounds(s, k, n);
    aes_turn::turn(s);
}
