// AES (FIPS 197) for keys of 16, 24 and 32 bytes. The state is four 32-bit columns, the byte of row 0 lowest; one round of a
// column is four look-ups in a table of 256 words (the T-table), each turned to its row. Look-ups are indexed by key and
// text bytes, so the time may depend on them where the processor's cache does.
#![tactic(auto)]

ghost use Rattle.std.specs.Prelude.{◌≡◌, map, ◌+◌, ◌<◌, ◌≤◌, length, take, drop};
ghost use Rattle.octets.specs.Buffers.{◌⊞◌, put};
ghost use Rattle.aes.specs.Cipher.{round_key};
ghost use Rattle.aes.specs.Words.{bytes, block_bytes};

pub mod encrypt;
pub mod key;
pub mod word;

// A block or a state: its columns 0 to 3.
#[derive(Clone, Copy)]
pub struct Block {
    pub a: u32,
    pub b: u32,
    pub c: u32,
    pub d: u32,
}

// The 16 bytes at a place.
pub fn read_block(s: &[u8], at: usize) -> Block
    requires { at + 16 ≤ length s.now }
    ensures { block_bytes result ≡ take 16 (drop at s.now) }
{
    Block {
        a: octets::read_u32_le(s, at),
        b: octets::read_u32_le(s, at + 4),
        c: octets::read_u32_le(s, at + 8),
        d: octets::read_u32_le(s, at + 12),
    }
}

// The 16 bytes of a block, to a place.
pub fn write_block(out: &mut [u8], at: usize, x: Block)
    requires { at + 16 ≤ length out.old }
    ensures { out.new ≡ put out.old at (block_bytes x) }
{
    octets::write_u32_le(out, at, x.a);
    octets::write_u32_le(out, at + 4, x.b);
    octets::write_u32_le(out, at + 8, x.c);
    octets::write_u32_le(out, at + 12, x.d);
}

// The sum of two blocks.
pub fn add(s: Block, k: Block) -> Block
    ensures { block_bytes result ≡ block_bytes s ⊞ block_bytes k }
{
    Block {
        a: s.a ^ k.a,
        b: s.b ^ k.b,
        c: s.c ^ k.c,
        d: s.d ^ k.d,
    }
}

// The four words of round r.
pub fn round_key(w: &[u32; 60], r: usize) -> Block
    requires { r < 15 }
    ensures { block_bytes result ≡ round_key (map bytes w.now) r }
{
    let i = 4 * r;
    Block {
        a: w[i],
        b: w[i + 1],
        c: w[i + 2],
        d: w[i + 3],
    }
}
