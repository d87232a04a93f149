// The product with a hash key, sixteen bits at a time, from a table that is built once for the key and lent down: the 16
// entries for four bits, in four parts, for the key and its next 4, 8 and 12 steps. So four lookups need no shift between them.
ghost use Rattle.std.specs.Prelude.{◌≡◌, ℕ, ◌+◌, ◌*◌, ◌/◌, ◌%◌, ◌^◌, ◌<◌, ◌≤◌, length, set};
ghost use Rattle.std.specs.Int.Bits.{bit_xor};
ghost use Rattle.ghash.specs.Field as field;
ghost use Rattle.ghash.specs.Table as table;
ghost use Rattle.ghash.specs.Table.{TableFor, key_in, Doubled, Made, entry, steps, lookups};
ghost use Rattle.ghash.specs.Words.{block_of, long_of};

use super::{Element, add};

// An element with the bits behind its last one that are not reduced yet.
#[derive(Clone, Copy)]
pub struct Long {
    pub hi: u64,
    pub lo: u64,
    pub out: u64,
}

// What is looked up for the two words of an element.
#[derive(Clone, Copy)]
struct Sums {
    high: Long,
    low: Long,
}

// v >> 1, and ⊕ R where the last bit of v is 1.
fn next(v: Element) -> Element
    ensures { block_of result ≡ field.next (block_of v) }
{
    Element {
        hi: (v.hi / 2) ^ (v.lo % 2 * 0xe100_0000_0000_0000),
        lo: v.hi % 2 * 0x8000_0000_0000_0000 + v.lo / 2,
    }
}

// 64 steps of V at once: R times a word is the word at four places.
fn step64(v: Element) -> Element
    ensures { block_of result ≡ steps 64 (block_of v) }
{
    let w = v.lo;
    Element {
        hi: w ^ w / 2 ^ w / 4 ^ w / 128,
        lo: v.hi
            ^ (w % 2 * 0x8000_0000_0000_0000
                ^ w % 4 * 0x4000_0000_0000_0000
                ^ w % 128 * 0x200_0000_0000_0000),
    }
}

// Writes the words of entry n.
fn set_entry(t: &mut [u64; 128], n: usize, e: Element)
    requires t_len { length t.old ≡ 128 }
    requires n_bound { n < 64 }
    ensures t_after { t.new ≡ set (set t.old (2 * n) e.hi) (2 * n + 1) e.lo }
    ensures t_len_unchanged { length t.new ≡ length t.old }
{
    t[2 * n] = e.hi;
    t[2 * n + 1] = e.lo;
}

// The entries from at + m to at + 2m - 1: those from at on, each with v added.
fn double(t: &mut [u64; 128], at: usize, m: usize, v: Element)
    requires t_len { length t.old ≡ 128 }
    requires at_bound { at ≤ 48 }
    requires m_bound { m ≤ 8 }
    ensures { Doubled t.old t.new at m (block_of v) }
{
    // An index: entries of one array are read and written.
    for n in 0..m {
        let from = at + n;
        let e = add(
            Element {
                hi: t[2 * from],
                lo: t[2 * from + 1],
            },
            v,
        );
        set_entry(t, at + m + n, e);
    }
}

// Part j, for v, which is the hash key after 4 * j steps; and v after four more.
fn write_part(t: &mut [u64; 128], j: usize, v: Element) -> Element
    requires t_len { length t.old ≡ 128 }
    requires j_bound { j < 4 }
    ensures by_index { (h : ℕ) → block_of v ≡ steps (4 * j) h → Made t.old h j → Made t.new h (j + 1) }
    ensures result_value { block_of result ≡ steps 4 (block_of v) }
{
    let v1 = next(v);
    let v2 = next(v1);
    let v3 = next(v2);
    let at = 16 * j;
    set_entry(t, at, Element { hi: 0, lo: 0 });
    double(t, at, 1, v3);
    double(t, at, 2, v2);
    double(t, at, 4, v1);
    double(t, at, 8, v);
    next(v3)
}

// The table for a hash key: the words of entry n of part j go to 2 * (16 * j + n) and behind it.
pub fn write_table(t: &mut [u64; 128], h: Element)
    requires { length t.old ≡ 128 }
    ensures { TableFor t.new (block_of h) }
{
    let mut v = h;
    for j in 0..4 {
        v = write_part(t, j, v);
    }
}

// The entry of part j for the last four bits of w.
fn entry_at(t: &[u64; 128], j: usize, w: u64) -> Element
    requires j_bound { j < 4 }
    requires table_for { TableFor t.now (key_in t.now) }
    ensures { block_of result ≡ entry (steps (4 * j) (key_in t.now)) (w % 16) }
{
    let n = 16 * j + (w % 16) as usize;
    Element {
        hi: t[2 * n],
        lo: t[2 * n + 1],
    }
}

// Four lookups, for the last 16 bits of w.
pub fn four_lookups(t: &[u64; 128], w: u64) -> Element
    requires { TableFor t.now (key_in t.now) }
    ensures { block_of result ≡ lookups (key_in t.now) w 4 }
{
    let a = entry_at(t, 3, w);
    let b = entry_at(t, 2, w / 0x10);
    let c = entry_at(t, 1, w / 0x100);
    let d = entry_at(t, 0, w / 0x1000);
    add(add(add(a, b), c), d)
}

// z sixteen places on, and e. What is shifted out is kept, to be reduced once.
pub fn shifted(z: Long, e: Element) -> Long
    ensures { long_of result ≡ bit_xor (long_of z / 2 ^ 16) (block_of e * 2 ^ 64) }
{
    Long {
        hi: (z.hi / 0x1_0000) ^ e.hi,
        lo: (z.hi % 0x1_0000 * 0x1_0000_0000_0000 + z.lo / 0x1_0000) ^ e.lo,
        out: z.lo % 0x1_0000 * 0x1_0000_0000_0000 + z.out / 0x1_0000,
    }
}

// Four lookups more for each word of x, from its bit at 16 * k on.
fn lookup(t: &[u64; 128], x: Element, s: Sums, k: u64) -> Sums
    requires k_bound { k < 4 }
    requires table_for { TableFor t.now (key_in t.now) }
    ensures high_value { long_of result.high
        ≡ bit_xor (long_of s.high / 2 ^ 16) (lookups (key_in t.now) (x.hi / 2 ^ (16 * k)) 4 * 2 ^ 64) }
    ensures low_value { long_of result.low
        ≡ bit_xor (long_of s.low / 2 ^ 16) (lookups (key_in t.now) (x.lo / 2 ^ (16 * k)) 4 * 2 ^ 64) }
{
    Sums {
        high: shifted(s.high, four_lookups(t, x.hi >> (16 * k))),
        low: shifted(s.low, four_lookups(t, x.lo >> (16 * k))),
    }
}

// 16 lookups for each word of x, from its last four bits on. The words are looked up apart, so that neither waits for the
// other, and in one function, so that their sums stay in registers.
fn gather(t: &[u64; 128], x: Element) -> Sums
    requires { TableFor t.now (key_in t.now) }
    ensures high_value { long_of result.high ≡ table.gather (key_in t.now) x.hi 4 }
    ensures low_value { long_of result.low ≡ table.gather (key_in t.now) x.lo 4 }
{
    let none = Long {
        hi: 0,
        lo: 0,
        out: 0,
    };
    let mut s = Sums {
        high: none,
        low: none,
    };
    for k in 0..4 {
        s = lookup(t, x, s, k);
    }
    s
}

// What 64 steps make of z.
pub fn reduce(z: Long) -> Element
    ensures { block_of result ≡ steps 64 (long_of z) }
{
    add(
        Element { hi: z.hi, lo: 0 },
        step64(Element {
            hi: z.lo,
            lo: z.out,
        }),
    )
}

// z ⊕ e, the last bit of one at that of the other.
pub fn add_behind(z: Long, e: Element) -> Long
    ensures { long_of result ≡ bit_xor (long_of z) (block_of e) }
{
    Long {
        hi: z.hi,
        lo: z.lo ^ e.hi,
        out: z.out ^ e.lo,
    }
}

// x • h by 32 lookups in the table for h. The low word's sum is 64 steps behind the high one's, and both are reduced
// together.
pub fn mul(t: &[u64; 128], x: Element) -> Element
    requires { TableFor t.now (key_in t.now) }
    ensures { block_of result ≡ field.mul (block_of x) (key_in t.now) }
{
    let s = gather(t, x);
    reduce(add_behind(s.high, reduce(s.low)))
}
