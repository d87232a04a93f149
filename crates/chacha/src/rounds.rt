// The rounds, on a state that is held as its four columns.
ghost use Rattle.std.specs.Prelude.{◌≡◌, ◌<◌};
ghost use Rattle.chacha.specs.ChaCha.{half, quarter, columns, diagonals};
ghost use Rattle.chacha.specs.Lanes.{words, diagonal as diagonal_of};

// The four words that a quarter round mixes: a column or a diagonal.
#[derive(Clone, Copy)]
pub struct Quad {
    pub a: u32,
    pub b: u32,
    pub c: u32,
    pub d: u32,
}

// A state, as its four columns.
#[derive(Clone, Copy)]
pub struct State {
    pub p: Quad,
    pub q: Quad,
    pub r: Quad,
    pub s: Quad,
}

// Half of a quarter round, with the rotations r and s.
fn half_round(q: Quad, r: u32, s: u32) -> Quad
    requires { (0 < r) × (r < 32) × (0 < s) × (s < 32) }
    ensures { result ≡ half q r s }
{
    let a = q.a.wrapping_add(q.b);
    let d = (q.d ^ a).rotate_left(r);
    let c = q.c.wrapping_add(d);
    let b = (q.b ^ c).rotate_left(s);
    Quad { a, b, c, d }
}

fn quarter_round(q: Quad) -> Quad
    ensures { result ≡ quarter q }
{
    half_round(half_round(q, 16, 12), 8, 7)
}

pub(crate) fn column_round(t: State) -> State
    ensures { words result ≡ columns (words t) }
{
    let p = quarter_round(t.p);
    let q = quarter_round(t.q);
    let r = quarter_round(t.r);
    let s = quarter_round(t.s);
    State { p, q, r, s }
}

// The words of four columns that lie on a diagonal which starts in the first.
fn diagonal(a: Quad, b: Quad, c: Quad, d: Quad) -> Quad
    ensures { result ≡ diagonal_of a b c d }
{
    Quad {
        a: a.a,
        b: b.b,
        c: c.c,
        d: d.d,
    }
}

// Of four diagonals, the columns are the diagonals that run the other way.
pub(crate) fn diagonal_round(t: State) -> State
    ensures { words result ≡ diagonals (words t) }
{
    let p = quarter_round(diagonal(t.p, t.q, t.r, t.s));
    let q = quarter_round(diagonal(t.q, t.r, t.s, t.p));
    let r = quarter_round(diagonal(t.r, t.s, t.p, t.q));
    let s = quarter_round(diagonal(t.s, t.p, t.q, t.r));
    State {
        p: diagonal(p, s, r, q),
        q: diagonal(q, p, s, r),
        r: diagonal(r, q, p, s),
        s: diagonal(s, r, q, p),
    }
}
