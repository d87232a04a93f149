// The hash computation of SHA-1 (FIPS 180-4, section 6.1.2) for one block. Its 80 rounds are in rounds.rt, its functions in words.rt.
#![tactic(auto)]

mod rounds;
mod words;

ghost use Rattle.std.specs.Prelude.{◌≡◌, ℕ, List, length, take};
ghost use Rattle.sha1_compression.specs.Schedule.{block_words, schedule};
ghost use Rattle.sha1_compression.specs.Compression.{plus as plus_of, compressed};

// A hash value, or the five working variables.
#[derive(Clone, Copy)]
pub struct State {
    pub a: u32,
    pub b: u32,
    pub c: u32,
    pub d: u32,
    pub e: u32,
}

// The sum of two hash values.
fn plus(s: State, h: State) -> State
    ensures { result ≡ plus_of s h }
{
    State {
        a: s.a.wrapping_add(h.a),
        b: s.b.wrapping_add(h.b),
        c: s.c.wrapping_add(h.c),
        d: s.d.wrapping_add(h.d),
        e: s.e.wrapping_add(h.e),
    }
}

// The sixteen words of the block.
fn load_block(w: &mut [u32; 80], s: &[u8])
    ensures { take 16 w.new ≡ block_words s.now }
{
    // An index: it is a word's place in the buffer and, times 4, in the block, which may be short.
    for i in 0..16 {
        w[i] = octets::read_u32_be(s, 4 * i);
    }
}

// W16 to W31.
fn first_words(w: &mut [u32; 80])
    ensures { take 32 w.new ≡ schedule 16 (take 16 w.old) }
{
    // An index: each word is made of words before it in the same buffer.
    for t in 16..32 {
        w[t] = (w[t - 3] ^ w[t - 8] ^ w[t - 14] ^ w[t - 16]).rotate_left(1);
    }
}

// W32 to W79, from words that lie further back, so that the compiler can make several at once.
fn further_words(w: &mut [u32; 80])
    ensures { (m : List ℕ) → length m ≡ 16 → take 32 w.old ≡ schedule 16 m → w.new ≡ schedule 64 m }
{
    // An index, as in first_words.
    for t in 32..80 {
        w[t] = (w[t - 6] ^ w[t - 16] ^ w[t - 28] ^ w[t - 32]).rotate_left(2);
    }
}

// The next hash value, from h and the block at the front of s. A byte past its end counts as 0.
pub fn compress(h: State, s: &[u8]) -> State
    ensures { result ≡ compressed h (block_words s.now) }
{
    let mut w = [0u32; 80];
    load_block(&mut w, s);
    first_words(&mut w);
    further_words(&mut w);
    plus(rounds::eighty(h, &w), h)
}
