// GHASH of long texts, four blocks a step: ((y ⊕ a) • H^4) ⊕ (b • H^3) ⊕ (c • H^2) ⊕ (d • H). The lookups of four blocks for the
// same sixteen bits are added before they are moved, so that one chain of moves and one reduction serve 64 bytes.
#![tactic(auto)]

ghost use Rattle.std.specs.Prelude.{◌≡◌, ◌+◌, ◌<◌, ◌≤◌, length, drop};
ghost use Rattle.std.specs.Int.Bits.{bit_xor};
ghost use Rattle.octets.specs.Numbers.{be};
ghost use Rattle.ghash.specs.Field.{mul};
ghost use Rattle.ghash.specs.Ghash.{blocks, ghash_from};
ghost use Rattle.ghash.specs.Table.{TableFor, key_in, lookups};
ghost use Rattle.ghash.specs.Words.{block_of, long_of};
ghost use Rattle.ghash_laws.specs.Laws.{Block};
ghost use Rattle.ghash_four.specs.Four.{sum4, Four, power, gathers, word_of};

use ghash::Element;
use ghash::product::Long;

// The tables for the hash key and its next three powers.
#[derive(Clone, Copy)]
struct Powers<'a> {
    t4: &'a [u64; 128],
    t3: &'a [u64; 128],
    t2: &'a [u64; 128],
    t1: &'a [u64; 128],
    ghost four: { Four t4.now t3.now t2.now t1.now },
}

// The lookups for the last sixteen bits of four words, each in its own table.
fn lookups_of_four(p: &Powers<'_>, a: u64, b: u64, c: u64, d: u64) -> Element
    ensures { block_of result
        ≡ sum4 (lookups (key_in p.now.t4.now) a 4) (lookups (key_in p.now.t3.now) b 4)
        (lookups (key_in p.now.t2.now) c 4) (lookups (key_in p.now.t1.now) d 4) }
{
    let w = ghash::product::four_lookups(p.t4, a);
    let x = ghash::product::four_lookups(p.t3, b);
    let y = ghash::product::four_lookups(p.t2, c);
    let z = ghash::product::four_lookups(p.t1, d);
    ghash::add(ghash::add(w, x), ghash::add(y, z))
}

// All lookups for four words, from their last bits on.
fn gather(p: &Powers<'_>, a: u64, b: u64, c: u64, d: u64) -> Long
    ensures { long_of result
        ≡ gathers (key_in p.now.t4.now) (key_in p.now.t3.now) (key_in p.now.t2.now) (key_in p.now.t1.now) a b c d 4 }
{
    let mut z = Long {
        hi: 0,
        lo: 0,
        out: 0,
    };
    for k in 0..4u64 {
        let m = 16 * k;
        let e = lookups_of_four(p, a >> m, b >> m, c >> m, d >> m);
        z = ghash::product::shifted(z, e);
    }
    z
}

// The low word of an element, and its high word.
fn word(x: Element, i: u64) -> u64
    ensures { result ≡ word_of x i }
{
    if i == 0 { x.lo } else { x.hi }
}

// The sum of four products, each with the key of its table: the low words first, and what is made of them 64 steps behind the
// high ones. One loop for both, so that the lookups stand in one place and in line.
fn products(p: &Powers<'_>, a: Element, b: Element, c: Element, d: Element) -> Element
    ensures { block_of result
        ≡ sum4 (mul (block_of a) (key_in p.now.t4.now)) (mul (block_of b) (key_in p.now.t3.now))
        (mul (block_of c) (key_in p.now.t2.now)) (mul (block_of d) (key_in p.now.t1.now)) }
{
    let mut z = Element { hi: 0, lo: 0 };
    for i in 0..2u64 {
        let s = gather(p, word(a, i), word(b, i), word(c, i), word(d, i));
        z = ghash::product::reduce(ghash::product::add_behind(s, z));
    }
    z
}

// The block at a place, all of whose bytes are there.
fn block_at(s: &[u8], at: usize) -> Element
    requires { at + 16 ≤ length s.now }
    ensures { block_of result ≡ be 16 (drop at s.now) }
{
    Element {
        hi: octets::load_u64_be(s, at),
        lo: octets::load_u64_be(s, at + 8),
    }
}

// Four steps of GHASH from y on, over the blocks at a place.
fn step(p: &Powers<'_>, y: Element, s: &[u8], at: usize) -> Element
    requires { at + 64 ≤ length s.now }
    ensures { block_of result
        ≡ sum4 (mul (bit_xor (block_of y) (be 16 (drop at s.now))) (key_in p.now.t4.now))
        (mul (be 16 (drop (at + 16) s.now)) (key_in p.now.t3.now))
        (mul (be 16 (drop (at + 32) s.now)) (key_in p.now.t2.now))
        (mul (be 16 (drop (at + 48) s.now)) (key_in p.now.t1.now)) }
{
    let a = ghash::add(y, block_at(s, at));
    let b = block_at(s, at + 16);
    let c = block_at(s, at + 32);
    let d = block_at(s, at + 48);
    products(p, a, b, c, d)
}

// The hash key that a table is for.
fn key_of(t: &[u64; 128]) -> Element
    ensures { block_of result ≡ key_in t.now }
{
    Element {
        hi: t[16],
        lo: t[17],
    }
}

// The table for the product of h, and of the key of t; and that product.
fn write_next(u: &mut [u64; 128], t: &[u64; 128], h: Element) -> Element
    requires u_len { length u.old ≡ 128 }
    requires table_for { TableFor t.now (key_in t.now) }
    ensures result_value { block_of result ≡ mul (block_of h) (key_in t.now) }
    ensures table_for_2 { TableFor u.new (mul (block_of h) (key_in t.now)) }
    ensures block { Block (block_of h) }
{
    let zero = [0u8; 16];
    let p = ghash::ghash_from(t, h, &zero);
    ghash::product::write_table(u, p);
    p
}

// The tables for the second, third and fourth power of the key of t.
fn write_powers(t4: &mut [u64; 128], t3: &mut [u64; 128], t2: &mut [u64; 128], t: &[u64; 128])
    requires t4_len { length t4.old ≡ 128 }
    requires t3_len { length t3.old ≡ 128 }
    requires t2_len { length t2.old ≡ 128 }
    requires table_for { TableFor t.now (key_in t.now) }
    ensures table_for_2 { TableFor t2.new (power (key_in t.now) 1) }
    ensures table_for_3 { TableFor t3.new (power (key_in t.now) 2) }
    ensures table_for_4 { TableFor t4.new (power (key_in t.now) 3) }
    ensures block { Block (key_in t.now) }
{
    let h2 = write_next(t2, t, key_of(t));
    let h3 = write_next(t3, t, h2);
    write_next(t4, t, h3);
}

// GHASH, four blocks a step.
fn by_four(t: &[u64; 128], y: Element, s: &[u8]) -> Element
    requires { TableFor t.now (key_in t.now) }
    ensures { block_of result ≡ ghash_from (key_in t.now) (block_of y) (blocks s.now) }
{
    let mut t2 = [0u64; 128];
    let mut t3 = [0u64; 128];
    let mut t4 = [0u64; 128];
    write_powers(&mut t4, &mut t3, &mut t2, t);
    let p = Powers {
        t4: &t4,
        t3: &t3,
        t2: &t2,
        t1: t,
    };
    let n = s.len() / 64;
    let mut z = y;
    // An index: of chunks_exact the remainder would have to be taken first, which is no plainer.
    for i in 0..n {
        z = step(&p, z, s, 64 * i);
    }
    ghash::ghash_from(t, z, &s[64 * n..])
}

// GHASH from y on over the bytes of s, the last block filled up with zeros, with the table for the hash key. Here alone it is
// decided which way: tables for three powers more take as long as 10 blocks one by one, and a step of four saves nearly two, so
// they are made from 448 bytes on (docs/PERFORMANCE.md).
pub fn ghash_from(t: &[u64; 128], y: Element, s: &[u8]) -> Element
    requires { TableFor t.now (key_in t.now) }
    ensures { block_of result ≡ ghash_from (key_in t.now) (block_of y) (blocks s.now) }
{
    if s.len() < 448 {
        return ghash::ghash_from(t, y, s);
    }
    by_four(t, y, s)
}
