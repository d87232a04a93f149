// A message's blocks: 16 bytes each, read as a number with a bit beyond it.
ghost use Rattle.std.specs.Prelude.{◌≡◌, ◌/◌, ◌^◌, ◌<◌, ◌≤◌, length, take, drop};
ghost use Rattle.octets.specs.Numbers.{le};
ghost use Rattle.poly1305.specs.Poly1305.{mod_p, block_number, poly_from, poly, zero_padded, padded, lengths, mac_data};
ghost use Rattle.poly1305.specs.Limbs.{Below, Loose, value};

use super::limbs;
use super::limbs::Limbs;

// The number of eight bytes from a place on, the first the lowest; a byte past the end counts as 0.
pub fn read_u64(s: &[u8], at: usize) -> u64
    requires { at ≤ 24 }
    ensures { result ≡ le 8 (drop at s.now) }
{
    octets::read_u32_le(s, at) as u64 | (octets::read_u32_le(s, at + 4) as u64) << 32
}

// The block at the start of s, with zeros for the bytes that it lacks.
fn first(s: &[u8]) -> Limbs
    ensures below { Below (2 ^ 26) result }
    ensures result_value { value result ≡ block_number (zero_padded (take 16 s.now)) }
{
    limbs::from_words(read_u64(s, 0), read_u64(s, 8), 1)
}

// A last block of fewer than 16 bytes.
fn short(s: &[u8]) -> Limbs
    requires { length s.now < 16 }
    ensures below { Below (2 ^ 26) result }
    ensures result_value { value result ≡ block_number s.now }
{
    let m = s.len();
    let mut b = [0u8; 16];
    octets::copy(&mut b, 0, s);
    b[m] = 1;
    limbs::from_words(read_u64(&b, 0), read_u64(&b, 8), 0)
}

// The accumulator after the whole blocks of s.
fn whole(r: Limbs, s: &[u8]) -> Limbs
    requires { Below (2 ^ 26) r }
    ensures loose { Loose result }
    ensures result_value { mod_p (value result) ≡ poly_from (length s.now / 16) (value r) 0 s.now }
{
    let mut a = Limbs::default();
    for block in s.chunks_exact(16) {
        a = limbs::step(a, first(block), r);
    }
    a
}

// The accumulator after all of s.
pub fn all(r: Limbs, s: &[u8]) -> Limbs
    requires { Below (2 ^ 26) r }
    ensures loose { Loose result }
    ensures result_value { mod_p (value result) ≡ poly (value r) s.now }
{
    let a = whole(r, s);
    let rest = s.chunks_exact(16).remainder();
    if rest.is_empty() {
        return a;
    }
    limbs::step(a, short(rest), r)
}

// The accumulator after all of s and zeros up to a whole block. It reads its last block otherwise than `all`: of a function over a
// closure for that, the contract would be longer than these two.
fn all_padded(r: Limbs, s: &[u8]) -> Limbs
    requires { Below (2 ^ 26) r }
    ensures loose { Loose result }
    ensures result_value { mod_p (value result) ≡ poly (value r) (padded s.now) }
{
    let a = whole(r, s);
    let rest = s.chunks_exact(16).remainder();
    if rest.is_empty() {
        return a;
    }
    limbs::step(a, first(rest), r)
}

// The AEAD's last block: the lengths of the additional data, of which there are none, and of the ciphertext.
fn of_lengths(n: u64) -> Limbs
    ensures below { Below (2 ^ 26) result }
    ensures result_value { value result ≡ block_number (lengths n) }
{
    limbs::from_words(0, n, 1)
}

// The accumulator after what the AEAD authenticates of a ciphertext.
pub fn all_of_aead(r: Limbs, c: &[u8]) -> Limbs
    requires { Below (2 ^ 26) r }
    ensures loose { Loose result }
    ensures result_value { mod_p (value result) ≡ poly (value r) (mac_data c.now) }
{
    let a = all_padded(r, c);
    limbs::step(a, of_lengths(c.len() as u64), r)
}
