// The 80 rounds of SHA-1 (FIPS 180-4, section 6.1.2, step 3): four phases of twenty, each with its own function and constant.
ghost use Rattle.std.specs.Prelude.{◌≡◌, ℕ, ◌+◌, ◌<◌, ◌≤◌};
ghost use Rattle.sha1_compression.specs.Functions.{f, K};
ghost use Rattle.sha1_compression.specs.Rounds.{turn as turn_of, rounds};

use super::State;
use super::words::{choose, majority, parity};

// What one round leaves, with the value x of its function, its constant k and its word w. The rotated word is ready last.
fn turn(s: State, x: u32, k: u32, w: u32) -> State
    ensures { result ≡ turn_of s x k w }
{
    let ready = k.wrapping_add(w).wrapping_add(s.e);
    State {
        a: s.a.rotate_left(5).wrapping_add(x.wrapping_add(ready)),
        b: s.a,
        c: s.b.rotate_left(30),
        d: s.c,
        e: s.d,
    }
}

// Twenty rounds from one on, with their function and their constant. Without the hint the two phases of parity share one copy that
// stays out of line, and SHA-1 takes 6 per cent longer.
#[inline(always)]
fn phase<F: Fn(u32, u32, u32) -> u32>(
    function: F,
    k: u32,
    from: usize,
    s: State,
    w: &[u32; 80],
) -> State
    requires callable { F.IsAlwaysCallable function }
    requires values { (t x y z r : ℕ) → from ≤ t → t < from + 20 → F.post function x y z r → r ≡ f t x y z }
    requires constants { (t : ℕ) → from ≤ t → t < from + 20 → k ≡ K t }
    requires from_bound { from ≤ 60 }
    ensures { result ≡ rounds 20 from s w.now }
{
    let mut z = s;
    for word in &w[from..from + 20] {
        z = turn(z, function(z.b, z.c, z.d), k, *word);
    }
    z
}

// All rounds, with the words of the message schedule.
pub(crate) fn eighty(s: State, w: &[u32; 80]) -> State
    ensures { result ≡ rounds 80 0 s w.now }
{
    let z = phase(choose, 0x5a82_7999, 0, s, w);
    let z = phase(parity, 0x6ed9_eba1, 20, z, w);
    let z = phase(majority, 0x8f1b_bcdc, 40, z, w);
    phase(parity, 0xca62_c1d6, 60, z, w)
}
