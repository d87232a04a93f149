// GHASH of SP 800-38D. An element of GCM's field is a block of two words, the first bit of the block the highest of hi; bit i
// is the coefficient of x^i.
#![tactic(auto)]

ghost use Rattle.std.specs.Prelude.{◌≡◌, ◌≤◌, length};
ghost use Rattle.std.specs.Int.Bits.{bit_xor};
ghost use Rattle.octets.specs.Buffers.{put};
ghost use Rattle.octets.specs.Numbers.{be, to_be};
ghost use Rattle.ghash.specs.Ghash.{blocks, ghash_from};
ghost use Rattle.ghash.specs.Table.{TableFor, key_in};
ghost use Rattle.ghash.specs.Words.{block_of};

pub mod product;

#[derive(Clone, Copy)]
pub struct Element {
    pub hi: u64,
    pub lo: u64,
}

// a ⊕ b.
pub fn add(a: Element, b: Element) -> Element
    ensures { block_of result ≡ bit_xor (block_of a) (block_of b) }
{
    Element {
        hi: a.hi ^ b.hi,
        lo: a.lo ^ b.lo,
    }
}

// A block that may be short, with zeros for what is past its end.
fn read_block(s: &[u8]) -> Element
    ensures { block_of result ≡ be 16 s.now }
{
    Element {
        hi: octets::read_u64_be(s, 0),
        lo: octets::read_u64_be(s, 8),
    }
}

// The bytes of a block, to the front of the lent buffer.
pub fn write_element(out: &mut [u8], x: Element)
    requires { 16 ≤ length out.old }
    ensures { out.new ≡ put out.old 0 (to_be 16 (block_of x)) }
{
    octets::write_u64_be(out, 0, x.hi);
    octets::write_u64_be(out, 8, x.lo);
}

// GHASH from y on over the bytes of s, the last block filled up with zeros, with the table for the hash key.
pub fn ghash_from(t: &[u64; 128], y: Element, s: &[u8]) -> Element
    requires { TableFor t.now (key_in t.now) }
    ensures { block_of result ≡ ghash_from (key_in t.now) (block_of y) (blocks s.now) }
{
    let mut z = y;
    for block in s.chunks(16) {
        z = product::mul(t, add(z, read_block(block)));
    }
    z
}
