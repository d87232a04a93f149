// Four states side by side: word i of the state j stands at 4 i + j of one array. The compiler works on all four at once
// where it sees that the loop over the states has one turn or four, and that the array is all that is lent to the loop.
ghost use Rattle.std.specs.Prelude.{◌≡◌, ◌+◌, ◌*◌, ◌<◌, ◌≤◌, length, slice_set};
ghost use Rattle.octets.specs.Buffers.{put};
ghost use Rattle.chacha.specs.ChaCha.{double_round, doubles, ends as ends_of};
ghost use Rattle.chacha.specs.Lanes.{words, lane, column, set_column, set_lane, Each, Spread, numbered, sum_of, sums, blocks_of};

use super::rounds::{Quad, State, column_round, diagonal_round};

// The column i of the state j.
fn load_column(v: &[u32; 64], i: usize, j: usize) -> Quad
    requires { (i < 4) × (j < 4) }
    ensures { result ≡ column v.now i j }
{
    Quad {
        a: v[4 * i + j],
        b: v[4 * (i + 4) + j],
        c: v[4 * (i + 8) + j],
        d: v[4 * (i + 12) + j],
    }
}

fn load(v: &[u32; 64], j: usize) -> State
    requires { j < 4 }
    ensures { words result ≡ lane v.now j }
{
    State {
        p: load_column(v, 0, j),
        q: load_column(v, 1, j),
        r: load_column(v, 2, j),
        s: load_column(v, 3, j),
    }
}

fn store_column(v: &mut [u32; 64], i: usize, j: usize, q: Quad)
    requires { (i < 4) × (j < 4) }
    ensures { v.new ≡ set_column v.old i j q }
{
    v[4 * i + j] = q.a;
    v[4 * (i + 4) + j] = q.b;
    v[4 * (i + 8) + j] = q.c;
    v[4 * (i + 12) + j] = q.d;
}

fn store(v: &mut [u32; 64], j: usize, t: State)
    requires { j < 4 }
    ensures { v.new ≡ set_lane v.old j t }
{
    store_column(v, 0, j, t.p);
    store_column(v, 1, j, t.q);
    store_column(v, 2, j, t.r);
    store_column(v, 3, j, t.s);
}

// A double round of the first m states.
fn double_round(v: &mut [u32; 64], m: usize)
    requires { m ≤ 4 }
    ensures { Each m double_round v.old v.new }
{
    // An index: a state's words stand four apart, so it is no part of the array to be walked.
    for j in 0..m {
        let t = load(v, j);
        store(v, j, diagonal_round(column_round(t)));
    }
}

fn one_or_four(m: usize) -> usize
    requires { m ≤ 4 }
    ensures { (m ≤ result) × (result ≤ 4) }
{
    if 1 < m { 4 } else { 1 }
}

// n double rounds of the first m states: 10 for ChaCha20, 6 for ChaCha12, 4 for ChaCha8.
fn double_rounds(v: &mut [u32; 64], n: usize, m: usize)
    requires { m ≤ 4 }
    ensures { Each m (doubles n) v.old v.new }
{
    let states = one_or_four(m);
    for _ in 0..n {
        double_round(v, states);
    }
}

// The state s four times, with the counters from c on.
fn spread(v: &mut [u32; 64], s: &[u32; 16], c: u32)
    ensures { Spread s.now c v.new }
{
    for (k, x) in v.iter_mut().enumerate() {
        *x = s[k / 4];
    }
    // An index: the counter grows with it.
    for j in 0..4 {
        v[48 + j] = c.wrapping_add(j as u32);
    }
}

fn with_counter(s: &[u32; 16], c: u32) -> [u32; 16]
    ensures { result ≡ slice_set s.now 12 c }
{
    let mut t = *s;
    t[12] = c;
    t
}

// The sum of the state j of v and the state t, in bytes, to a place of a buffer.
fn write_sum(out: &mut [u8], at: usize, v: &[u32; 64], j: usize, t: &[u32; 16])
    requires at_in_bounds { at + 64 ≤ length out.old }
    requires j_bound { j < 4 }
    ensures { out.new ≡ put out.old at (sum_of v.now j t.now) }
{
    for (i, x) in t.iter().enumerate() {
        octets::write_u32_le(out, at + 4 * i, v[4 * i + j].wrapping_add(*x));
    }
}

// The sums of the first m states of v and s with the counters from c on, one behind the other.
fn write_sums(out: &mut [u8], v: &[u32; 64], s: &[u32; 16], c: u32, m: usize)
    requires m_in_bounds { 64 * m ≤ length out.old }
    requires m_bound { m ≤ 4 }
    ensures { out.new ≡ put out.old 0 (sums v.now s.now c m) }
{
    // An index: j is the state's number, its counter beyond c and its block's place.
    for j in 0..m {
        let t = with_counter(s, c.wrapping_add(j as u32));
        write_sum(out, 64 * j, v, j, &t);
    }
}

// m blocks of key stream to the front of a buffer, from that with the counter c on.
pub(crate) fn batch(out: &mut [u8], n: usize, s: &[u32; 16], c: u32, m: usize)
    requires m_in_bounds { 64 * m ≤ length out.old }
    requires m_bound { m ≤ 4 }
    ensures { out.new ≡ put out.old 0 (blocks_of n s.now c m) }
{
    let mut v = [0u32; 64];
    spread(&mut v, s, c);
    double_rounds(&mut v, n, m);
    write_sums(out, &v, s, c, m);
}

// The first and the last four words of the state s with the counter c after n double rounds.
pub(crate) fn mixed_ends(n: usize, s: &[u32; 16], c: u32) -> [u32; 8]
    ensures { result ≡ ends_of (doubles n (numbered s.now c)) }
{
    let mut v = [0u32; 64];
    spread(&mut v, s, c);
    double_rounds(&mut v, n, 1);
    [v[0], v[4], v[8], v[12], v[48], v[52], v[56], v[60]]
}
