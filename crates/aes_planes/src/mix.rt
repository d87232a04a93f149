// MixColumns, ShiftRows and AddRoundKey on planes of bits: 32 blocks at once.
ghost use Rattle.std.specs.Prelude.{◌≡◌, ◌+◌, ◌*◌, ◌<◌, ◌≤◌, length};
ghost use Rattle.aes_planes.specs.Mix.{sums_of, both_of, row_of, key_row_of, mixed_of, set_row, sum_row, bit_of, low_of, high_of, lane_of, columns_of, last_bit_of, last_of};

// One bit of the four bytes of a column.
#[derive(Clone, Copy)]
pub struct Quad {
    pub a: u32,
    pub b: u32,
    pub c: u32,
    pub e: u32,
}

fn sums(q: Quad) -> Quad
    ensures { result ≡ sums_of q }
{
    Quad {
        a: q.a ^ q.b,
        b: q.b ^ q.c,
        c: q.c ^ q.e,
        e: q.e ^ q.a,
    }
}

fn both(x: Quad, y: Quad) -> Quad
    ensures { result ≡ both_of x y }
{
    Quad {
        a: x.a ^ y.a,
        b: x.b ^ y.b,
        c: x.c ^ y.c,
        e: x.e ^ y.e,
    }
}

// A bit of the bytes that ShiftRows brings to column j, at = 8 * the bit + j.
fn row(t: &[u32; 256], at: usize) -> Quad
    requires { at < 60 }
    ensures { result ≡ row_of t.now at }
{
    Quad {
        a: t[at],
        b: t[at + 65],
        c: t[at + 130],
        e: t[at + 195],
    }
}

// A bit of the round key's column.
fn key_row(k: &[u32; 1920], n: usize) -> Quad
    requires { n < 480 }
    ensures { result ≡ key_row_of k.now n }
{
    Quad {
        a: k[n],
        b: k[n + 480],
        c: k[n + 960],
        e: k[n + 1440],
    }
}

// A bit of the column's bytes: what is doubled, the bytes and sums of that bit, and the key.
fn mixed(d: Quad, r: Quad, x: Quad, k: Quad) -> Quad
    ensures { result ≡ mixed_of d r x k }
{
    Quad {
        a: d.a ^ r.b ^ x.c ^ k.a,
        b: d.b ^ r.c ^ x.e ^ k.b,
        c: d.c ^ r.e ^ x.a ^ k.c,
        e: d.e ^ r.a ^ x.b ^ k.e,
    }
}

fn set_row(s: &mut [u32; 128], at: usize, x: Quad)
    requires s_len { length s.old ≡ 128 }
    requires at_bound { at < 32 }
    ensures s_len_2 { length s.new ≡ 128 }
    ensures s_after { s.new ≡ set_row s.old at x }
{
    s[at] = x.a;
    s[at + 32] = x.b;
    s[at + 64] = x.c;
    s[at + 96] = x.e;
}

// Bit b of column j: the sum of what is doubled, d, and the rest; and the sums of this bit, to be doubled next.
fn mix_bit(
    s: &mut [u32; 128],
    t: &[u32; 256],
    k: &[u32; 1920],
    b: usize,
    n: usize,
    j: usize,
    d: Quad,
) -> Quad
    requires s_len { length s.old ≡ 128 }
    requires b_bound { b < 8 }
    requires n_bound { n ≤ 56 }
    requires j_bound { j < 4 }
    ensures s_len_2 { length s.new ≡ 128 }
    ensures s_after { s.new ≡ set_row s.old (4 * b + j) (bit_of t.now k.now n j b d) }
    ensures value { result ≡ sum_row t.now j b }
{
    let r = row(t, 8 * b + j);
    let x = sums(r);
    set_row(s, 4 * b + j, mixed(d, r, x, key_row(k, 60 * b + n + j)));
    x
}

// Bits 0 to 3; the sums of the highest bit are lent, and those of bit 3 handed on.
fn mix_low(
    s: &mut [u32; 128],
    t: &[u32; 256],
    k: &[u32; 1920],
    n: usize,
    j: usize,
    x7: Quad,
) -> Quad
    requires s_len { length s.old ≡ 128 }
    requires n_bound { n ≤ 56 }
    requires j_bound { j < 4 }
    ensures s_len_2 { length s.new ≡ 128 }
    ensures s_after { s.new ≡ low_of s.old t.now k.now n j x7 }
    ensures value { result ≡ sum_row t.now j 3 }
{
    let x0 = mix_bit(s, t, k, 0, n, j, x7);
    let x1 = mix_bit(s, t, k, 1, n, j, both(x0, x7));
    let x2 = mix_bit(s, t, k, 2, n, j, x1);
    mix_bit(s, t, k, 3, n, j, both(x2, x7))
}

fn mix_high(s: &mut [u32; 128], t: &[u32; 256], k: &[u32; 1920], n: usize, j: usize, d: Quad)
    requires s_len { length s.old ≡ 128 }
    requires n_bound { n ≤ 56 }
    requires j_bound { j < 4 }
    ensures s_len_2 { length s.new ≡ 128 }
    ensures s_after { s.new ≡ high_of s.old t.now k.now n j d }
{
    let x4 = mix_bit(s, t, k, 4, n, j, d);
    let x5 = mix_bit(s, t, k, 5, n, j, x4);
    let x6 = mix_bit(s, t, k, 6, n, j, x5);
    mix_bit(s, t, k, 7, n, j, x6);
}

// MixColumns of column j, of the bytes that ShiftRows brings there, and the sum with the round key.
fn mix_lane(s: &mut [u32; 128], t: &[u32; 256], k: &[u32; 1920], n: usize, j: usize)
    requires s_len { length s.old ≡ 128 }
    requires n_bound { n ≤ 56 }
    requires j_bound { j < 4 }
    ensures s_len_2 { length s.new ≡ 128 }
    ensures s_after { s.new ≡ lane_of s.old t.now k.now n j }
{
    let x7 = sums(row(t, 56 + j));
    let x3 = mix_low(s, t, k, n, j, x7);
    mix_high(s, t, k, n, j, both(x3, x7));
}

pub fn mix_columns(s: &mut [u32; 128], t: &[u32; 256], k: &[u32; 1920], r: usize)
    requires s_len { length s.old ≡ 128 }
    requires r_bound { r < 15 }
    ensures s_len_2 { length s.new ≡ 128 }
    ensures s_after { s.new ≡ columns_of s.old t.now k.now (4 * r) 4 }
{
    for j in 0..4 {
        mix_lane(s, t, k, 4 * r, j);
    }
}

// ShiftRows and the sum with the last round key, of the bits of one column.
fn last_lane(s: &mut [u32; 128], t: &[u32; 256], k: &[u32; 1920], n: usize, b: usize, j: usize)
    requires s_len { length s.old ≡ 128 }
    requires n_bound { n ≤ 56 }
    requires b_bound { b < 8 }
    requires j_bound { j < 4 }
    ensures s_len_2 { length s.new ≡ 128 }
    ensures s_after { s.new ≡ set_row s.old (4 * b + j) (both_of (row_of t.now (8 * b + j)) (key_row_of k.now (60 * b + n + j))) }
{
    set_row(
        s,
        4 * b + j,
        both(row(t, 8 * b + j), key_row(k, 60 * b + n + j)),
    );
}

fn last_bit(s: &mut [u32; 128], t: &[u32; 256], k: &[u32; 1920], n: usize, b: usize)
    requires s_len { length s.old ≡ 128 }
    requires n_bound { n ≤ 56 }
    requires b_bound { b < 8 }
    ensures s_len_2 { length s.new ≡ 128 }
    ensures s_after { s.new ≡ last_bit_of s.old t.now k.now n b 4 }
{
    for j in 0..4 {
        last_lane(s, t, k, n, b, j);
    }
}

pub fn last_round(s: &mut [u32; 128], t: &[u32; 256], k: &[u32; 1920], r: usize)
    requires s_len { length s.old ≡ 128 }
    requires r_bound { r < 15 }
    ensures s_len_2 { length s.new ≡ 128 }
    ensures s_after { s.new ≡ last_of s.old t.now k.now (4 * r) 8 }
{
    for b in 0..8 {
        last_bit(s, t, k, 4 * r, b);
    }
}
