// The mixing function of BLAKE3.
#![tactic(auto)]

ghost use Rattle.std.specs.Prelude.{◌≡◌, ◌<◌};
ghost use Rattle.blake3_mixing.specs.Mixing.{half, G};

// The four words of a state that are mixed together.
#[derive(Clone, Copy)]
pub struct Quad {
    pub a: u32,
    pub b: u32,
    pub c: u32,
    pub d: u32,
}

// Half of the mixing function: the message word m, and the rotations r and s.
#[inline(always)]
fn half_mix(q: Quad, m: u32, r: u32, s: u32) -> Quad
    requires { (0 < r) × (r < 32) × (0 < s) × (s < 32) }
    ensures { result ≡ half q m r s }
{
    let a = q.a.wrapping_add(q.b).wrapping_add(m);
    let d = (q.d ^ a).rotate_right(r);
    let c = q.c.wrapping_add(d);
    let b = (q.b ^ c).rotate_right(s);
    Quad { a, b, c, d }
}

// The mixing function G with the message words x and y.
#[inline(always)]
pub fn mix(q: Quad, x: u32, y: u32) -> Quad
    ensures { result ≡ G q x y }
{
    half_mix(half_mix(q, x, 16, 12), y, 8, 7)
}
