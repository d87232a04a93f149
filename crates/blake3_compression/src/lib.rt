// The compression function of BLAKE3, on a state that is held as its four columns; a message is held in the same way. The compiler
// keeps structs in registers, and arrays in memory. blake3_lanes has the same rounds: where they have two callers, they are in line
// by the hint alone (docs/PERFORMANCE.md).
#![tactic(auto)]

ghost use Rattle.std.specs.Prelude.{◌≡◌};
ghost use Rattle.blake3_compression.specs.Compression.{columns, diagonals, one_round, permuted, rounds, initial, final, compressed};
ghost use Rattle.blake3_compression.specs.Columns.{words, diagonal as diagonal_of, sixteen};

use blake3_mixing::{Quad, mix};

#[derive(Clone, Copy)]
pub struct State {
    pub p: Quad,
    pub q: Quad,
    pub r: Quad,
    pub s: Quad,
}

#[inline(always)]
fn mix_columns(t: State, m: State) -> State
    ensures { words result ≡ columns (words t) (words m) }
{
    let p = mix(t.p, m.p.a, m.q.a);
    let q = mix(t.q, m.r.a, m.s.a);
    let r = mix(t.r, m.p.b, m.q.b);
    let s = mix(t.s, m.r.b, m.s.b);
    State { p, q, r, s }
}

// The words of four columns that lie on a diagonal which starts in the first.
#[inline(always)]
fn diagonal(a: Quad, b: Quad, c: Quad, d: Quad) -> Quad
    ensures { result ≡ diagonal_of a b c d }
{
    Quad {
        a: a.a,
        b: b.b,
        c: c.c,
        d: d.d,
    }
}

// Of four diagonals, the columns are the diagonals that run the other way.
#[inline(always)]
fn mix_diagonals(t: State, m: State) -> State
    ensures { words result ≡ diagonals (words t) (words m) }
{
    let p = mix(diagonal(t.p, t.q, t.r, t.s), m.p.c, m.q.c);
    let q = mix(diagonal(t.q, t.r, t.s, t.p), m.r.c, m.s.c);
    let r = mix(diagonal(t.r, t.s, t.p, t.q), m.p.d, m.q.d);
    let s = mix(diagonal(t.s, t.p, t.q, t.r), m.r.d, m.s.d);
    State {
        p: diagonal(p, s, r, q),
        q: diagonal(q, p, s, r),
        r: diagonal(r, q, p, s),
        s: diagonal(s, r, q, p),
    }
}

#[inline(always)]
pub fn round(t: State, m: State) -> State
    ensures { words result ≡ one_round (words t) (words m) }
{
    mix_diagonals(mix_columns(t, m), m)
}

// The message words in the next round's order.
#[inline(always)]
pub fn permute(m: State) -> State
    ensures { words result ≡ permuted (words m) }
{
    State {
        p: Quad {
            a: m.r.a,
            b: m.s.b,
            c: m.q.a,
            d: m.q.c,
        },
        q: Quad {
            a: m.r.b,
            b: m.p.a,
            c: m.s.c,
            d: m.r.d,
        },
        r: Quad {
            a: m.s.a,
            b: m.p.b,
            c: m.p.d,
            d: m.s.d,
        },
        s: Quad {
            a: m.r.c,
            b: m.q.d,
            c: m.q.b,
            d: m.p.c,
        },
    }
}

// One after another and in no loop: each round's place for each message word is then known as the code is made, and no word is
// moved between rounds.
fn seven_rounds(t: State, m: State) -> State
    ensures { words result ≡ rounds 7 (words t) (words m) }
{
    let v = round(t, m);
    let m = permute(m);
    let v = round(v, m);
    let m = permute(m);
    let v = round(v, m);
    let m = permute(m);
    let v = round(v, m);
    let m = permute(m);
    let v = round(v, m);
    let m = permute(m);
    let v = round(v, m);
    let m = permute(m);
    round(v, m)
}

// The state before the first round.
pub fn start(h: [u32; 8], t: u64, b: u32, d: u32) -> State
    ensures { words result ≡ initial h t b d }
{
    State {
        p: Quad {
            a: h[0],
            b: h[4],
            c: 0x6A09_E667,
            d: (t % 0x1_0000_0000) as u32,
        },
        q: Quad {
            a: h[1],
            b: h[5],
            c: 0xBB67_AE85,
            d: (t / 0x1_0000_0000) as u32,
        },
        r: Quad {
            a: h[2],
            b: h[6],
            c: 0x3C6E_F372,
            d: b,
        },
        s: Quad {
            a: h[3],
            b: h[7],
            c: 0xA54F_F53A,
            d,
        },
    }
}

pub fn columns_of(m: [u32; 16]) -> State
    ensures { words result ≡ sixteen m }
{
    State {
        p: Quad {
            a: m[0],
            b: m[4],
            c: m[8],
            d: m[12],
        },
        q: Quad {
            a: m[1],
            b: m[5],
            c: m[9],
            d: m[13],
        },
        r: Quad {
            a: m[2],
            b: m[6],
            c: m[10],
            d: m[14],
        },
        s: Quad {
            a: m[3],
            b: m[7],
            c: m[11],
            d: m[15],
        },
    }
}

// The output, from the last state.
fn finish(v: State, h: [u32; 8]) -> [u32; 16]
    ensures { result ≡ final (words v) h }
{
    [
        v.p.a ^ v.p.c,
        v.q.a ^ v.q.c,
        v.r.a ^ v.r.c,
        v.s.a ^ v.s.c,
        v.p.b ^ v.p.d,
        v.q.b ^ v.q.d,
        v.r.b ^ v.r.d,
        v.s.b ^ v.s.d,
        v.p.c ^ h[0],
        v.q.c ^ h[1],
        v.r.c ^ h[2],
        v.s.c ^ h[3],
        v.p.d ^ h[4],
        v.q.d ^ h[5],
        v.r.d ^ h[6],
        v.s.d ^ h[7],
    ]
}

// The chaining value h, the message words m, the counter t, the block's length b and the flags d, compressed.
pub fn compress(h: [u32; 8], m: [u32; 16], t: u64, b: u32, d: u32) -> [u32; 16]
    ensures { result ≡ compressed h m t b d }
{
    finish(seven_rounds(start(h, t, b, d), columns_of(m)), h)
}
