// Numbers modulo 2^130 - 5 as five limbs of 26 bits, the lowest first. A limb may be larger for a while.
ghost use Rattle.std.specs.Prelude.{◌≡◌, ◌+◌, ◌*◌, ◌^◌, ◌<◌};
ghost use Rattle.poly1305.specs.Poly1305.{mod_p};
ghost use Rattle.poly1305.specs.Limbs.{Split, Below, Loose, Sum, Chained, value, from_words, low_word, high_word};

#[derive(Clone, Copy, Default)]
pub struct Limbs {
    pub l0: u64,
    pub l1: u64,
    pub l2: u64,
    pub l3: u64,
    pub l4: u64,
}

// Limbs below 2^26, and what is carried out of the highest.
#[derive(Clone, Copy)]
pub struct Summed {
    pub limbs: Limbs,
    pub top: u64,
}

// The low 26 bits of a number, and the rest.
#[derive(Clone, Copy)]
pub struct Parts {
    pub low: u64,
    pub high: u64,
}

fn split(x: u64) -> Parts
    ensures { Split x result }
{
    Parts {
        low: x % 0x400_0000,
        high: x / 0x400_0000,
    }
}

// The number of two words and a bit above them.
pub fn from_words(low: u64, high: u64, top: u64) -> Limbs
    requires { top < 2 }
    ensures below { Below (2 ^ 26) result }
    ensures result_value { value result ≡ from_words low high top }
{
    Limbs {
        l0: low % 0x400_0000,
        l1: low / 0x400_0000 % 0x400_0000,
        l2: low / 0x10_0000_0000_0000 + high % 0x4000 * 0x1000,
        l3: high / 0x4000 % 0x400_0000,
        l4: high / 0x100_0000_0000 + top * 0x100_0000,
    }
}

// The low 128 bits, as two words.
pub fn low_word(l: Limbs) -> u64
    requires { Below (2 ^ 26) l }
    ensures { result ≡ low_word l }
{
    l.l0 + l.l1 * 0x400_0000 + l.l2 % 0x1000 * 0x10_0000_0000_0000
}

pub fn high_word(l: Limbs) -> u64
    requires { Below (2 ^ 26) l }
    ensures { result ≡ high_word l }
{
    l.l2 / 0x1000 + l.l3 * 0x4000 + l.l4 % 0x100_0000 * 0x100_0000_0000
}

// The sum, limb by limb.
pub fn plus(a: Limbs, b: Limbs) -> Limbs
    requires below { Below (2 ^ 60) a }
    requires below_2 { Below (2 ^ 60) b }
    ensures { Sum a b result }
{
    Limbs {
        l0: a.l0 + b.l0,
        l1: a.l1 + b.l1,
        l2: a.l2 + b.l2,
        l3: a.l3 + b.l3,
        l4: a.l4 + b.l4,
    }
}

// A limb of a product. Five numbers and no Limbs, so that a call is a line.
fn dot(h: Limbs, x0: u64, x1: u64, x2: u64, x3: u64, x4: u64) -> u64
    requires below { Below (2 ^ 28) h }
    requires x0_bound { (x0 < 2 ^ 29) × (x1 < 2 ^ 29) × (x2 < 2 ^ 29) × (x3 < 2 ^ 29) × (x4 < 2 ^ 29) }
    ensures upper_bound { result < 2 ^ 60 }
    ensures value { result ≡ h.l0 * x0 + h.l1 * x1 + h.l2 * x2 + h.l3 * x3 + h.l4 * x4 }
{
    h.l0 * x0 + h.l1 * x1 + h.l2 * x2 + h.l3 * x3 + h.l4 * x4
}

// The product modulo 2^130 - 5, with large limbs. What stands five limbs up comes back five times.
fn product(h: Limbs, r: Limbs) -> Limbs
    requires below { Below (2 ^ 28) h }
    requires loose { Loose r }
    ensures below_2 { Below (2 ^ 60) result }
    ensures result_value { mod_p (value result) ≡ mod_p (value h * value r) }
{
    let s1 = r.l1 * 5;
    let s2 = r.l2 * 5;
    let s3 = r.l3 * 5;
    let s4 = r.l4 * 5;
    Limbs {
        l0: dot(h, r.l0, s4, s3, s2, s1),
        l1: dot(h, r.l1, r.l0, s4, s3, s2),
        l2: dot(h, r.l2, r.l1, r.l0, s4, s3),
        l3: dot(h, r.l3, r.l2, r.l1, r.l0, s4),
        l4: dot(h, r.l4, r.l3, r.l2, r.l1, r.l0),
    }
}

// A number with large limbs, modulo 2^130 - 5, with small ones.
fn carry(d: Limbs) -> Limbs
    requires { Below (2 ^ 61) d }
    ensures loose { Loose result }
    ensures result_value { mod_p (value result) ≡ mod_p (value d) }
{
    let s0 = split(d.l0);
    let s1 = split(d.l1 + s0.high);
    let s2 = split(d.l2 + s1.high);
    let s3 = split(d.l3 + s2.high);
    let s4 = split(d.l4 + s3.high);
    let t0 = split(s0.low + s4.high * 5);
    Limbs {
        l0: t0.low,
        l1: s1.low + t0.high,
        l2: s2.low,
        l3: s3.low,
        l4: s4.low,
    }
}

// (a + n) r modulo 2^130 - 5.
pub fn step(a: Limbs, n: Limbs, r: Limbs) -> Limbs
    requires loose { Loose a }
    requires below { Below (2 ^ 26) n }
    requires loose_2 { Loose r }
    ensures loose_3 { Loose result }
    ensures result_value { mod_p (value result) ≡ mod_p ((mod_p (value a) + value n) * value r) }
{
    carry(product(plus(a, n), r))
}

// h + x with all limbs small.
pub fn chain(h: Limbs, x: u64) -> Summed
    requires below { Below (2 ^ 28) h }
    requires x_bound { x < 2 ^ 28 }
    ensures { Chained h x result }
{
    let s0 = split(h.l0 + x);
    let s1 = split(h.l1 + s0.high);
    let s2 = split(h.l2 + s1.high);
    let s3 = split(h.l3 + s2.high);
    let s4 = split(h.l4 + s3.high);
    let limbs = Limbs {
        l0: s0.low,
        l1: s1.low,
        l2: s2.low,
        l3: s3.low,
        l4: s4.low,
    };
    Summed {
        limbs,
        top: s4.high,
    }
}

// a modulo 2^130 - 5: five more carries out of 2^130 as often as the prime goes into a.
pub fn reduce(a: Limbs) -> Limbs
    requires { Loose a }
    ensures below { Below (2 ^ 26) result }
    ensures result_value { value result ≡ mod_p (value a) }
{
    let q = chain(a, 5);
    let t = chain(a, q.top * 5);
    t.limbs
}
