// ChaCha with any number of double rounds (RFC 8439, section 2), and HChaCha (draft-irtf-cfrg-xchacha, section 2.2). No branch and
// no index depends on key, nonce or text.
#![tactic(auto)]

mod lanes;
mod rounds;

ghost use Rattle.std.specs.Prelude.{◌≡◌, ◌*◌, ◌/◌, ◌≤◌, min, [], ◌∷◌, length, drop};
ghost use Rattle.octets.specs.Buffers.{put, ◌⊞◌};
ghost use Rattle.chacha.specs.Words.{bytes};
ghost use Rattle.chacha.specs.ChaCha.{initial as initial_of, counted as counted_of, key_block, key_stream, hchacha as hchacha_of, stream};

// The state before the first round: the constants, eight words of the key, and four words more.
fn initial(key: &[u8], a: u32, b: u32, c: u32, d: u32) -> [u32; 16]
    ensures { result ≡ initial_of key.now (a ∷ b ∷ c ∷ d ∷ []) }
{
    [
        0x6170_7865,
        0x3320_646e,
        0x7962_2d32,
        0x6b20_6574,
        octets::read_u32_le(key, 0),
        octets::read_u32_le(key, 4),
        octets::read_u32_le(key, 8),
        octets::read_u32_le(key, 12),
        octets::read_u32_le(key, 16),
        octets::read_u32_le(key, 20),
        octets::read_u32_le(key, 24),
        octets::read_u32_le(key, 28),
        a,
        b,
        c,
        d,
    ]
}

fn counted(key: &[u8], counter: u32, nonce: &[u8]) -> [u32; 16]
    ensures { result ≡ counted_of key.now counter nonce.now }
{
    let b = octets::read_u32_le(nonce, 0);
    let c = octets::read_u32_le(nonce, 4);
    let d = octets::read_u32_le(nonce, 8);
    initial(key, counter, b, c, d)
}

// As many blocks of key stream as LENGTH has room for, at most four.
fn first_blocks<const LENGTH: usize>(
    n: usize,
    key: &[u8],
    counter: u32,
    nonce: &[u8],
) -> [u8; LENGTH]
    requires whole { 64 * (LENGTH / 64) ≡ LENGTH }
    requires few { LENGTH ≤ 256 }
    ensures { result ≡ key_stream n key.now counter nonce.now (LENGTH / 64) }
{
    let mut b = [0u8; LENGTH];
    lanes::batch(
        &mut b,
        n,
        &counted(key, counter, nonce),
        counter,
        LENGTH / 64,
    );
    b
}

// 64 bytes of key stream.
pub fn block(n: usize, key: &[u8], counter: u32, nonce: &[u8]) -> [u8; 64]
    ensures { result ≡ key_block n key.now counter nonce.now }
{
    first_blocks(n, key, counter, nonce)
}

// Four blocks of key stream at once, which takes less than twice the time of one.
pub fn blocks(n: usize, key: &[u8], counter: u32, nonce: &[u8]) -> [u8; 256]
    ensures { result ≡ key_stream n key.now counter nonce.now 4 }
{
    first_blocks(n, key, counter, nonce)
}

// Some words to the front of a buffer, the lowest byte of each first.
fn write_words(out: &mut [u8], w: &[u32])
    requires { 4 * length w.now ≤ length out.old }
    ensures { out.new ≡ put out.old 0 (bytes w.now) }
{
    for (i, x) in w.iter().enumerate() {
        octets::write_u32_le(out, 4 * i, *x);
    }
}

// The subkey of HChaCha, for a nonce of 16 bytes.
pub fn hchacha(n: usize, key: &[u8], nonce: &[u8]) -> [u8; 32]
    ensures { result ≡ hchacha_of n key.now nonce.now }
{
    let a = octets::read_u32_le(nonce, 0);
    let b = octets::read_u32_le(nonce, 4);
    let c = octets::read_u32_le(nonce, 8);
    let d = octets::read_u32_le(nonce, 12);
    let w = lanes::mixed_ends(n, &initial(key, a, b, c, d), a);
    let mut k = [0u8; 32];
    write_words(&mut k, &w);
    k
}

// A string of key stream into a text from a place on, as far as both go.
fn xor_at(s: &mut [u8], at: usize, k: &[u8])
    requires { at ≤ length s.old }
    ensures { s.new ≡ put s.old at (drop at s.old ⊞ k.now) }
{
    octets::xor_into(&mut s[at..], k);
}

// How many blocks to make of the next four: those behind the text's end may be left out.
fn needed(rest: usize) -> usize
    ensures { (result ≤ 4) × (min 256 rest ≤ 64 * result) }
{
    if 64 < rest { 4 } else { 1 }
}

// The text ⊕ the key stream from the block with the number `counter` on, in place.
pub fn xor_stream(n: usize, key: &[u8], counter: u32, nonce: &[u8], s: &mut [u8])
    ensures { s.new ≡ stream n key.now counter nonce.now s.old }
{
    let first = counted(key, counter, nonce);
    let batches = (s.len() + 255) / 256;
    let mut b = [0u8; 256];
    let mut c = counter;
    // An index: of a text that is walked by `chunks_mut` a proof knows nothing afterwards.
    for i in 0..batches {
        let m = needed(s.len() - 256 * i);
        lanes::batch(&mut b, n, &first, c, m);
        xor_at(s, 256 * i, &b);
        c = c.wrapping_add(4);
    }
}

// The text ⊕ the key stream from block 1 on, in place, where blocks 0 to 3 are made already.
pub fn xor_with_blocks(n: usize, key: &[u8], nonce: &[u8], four: &[u8], s: &mut [u8])
    requires { four.now ≡ key_stream n key.now 0 nonce.now 4 }
    ensures { s.new ≡ stream n key.now 1 nonce.now s.old }
{
    octets::xor_into(s, &four[64..]);
    if s.len() <= 192 {
        return;
    }
    xor_stream(n, key, 4, nonce, &mut s[192..]);
}
