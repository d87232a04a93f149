// Planes to words of blocks, and back: 4 matrices of 32 by 32 bits, turned.
#![tactic(auto)]

ghost use Rattle.std.specs.Prelude.{◌≡◌, ◌+◌, ◌*◌, ◌<◌, ◌≤◌, length};
ghost use Rattle.aes_turn.specs.Turn.{moved_of, exchange_of, stage_of, turn_of};

fn moved(a: u32, b: u32, d: usize, m: u32) -> u32
    requires { d < 32 }
    ensures { result ≡ moved_of d m a b }
{
    ((a >> d) ^ b) & m
}

// The parts of two rows of 32 blocks' words that change places, in 4 * d words of each.
fn exchange(s: &mut [u32; 128], at: usize, d: usize, m: u32)
    requires s_len { length s.old ≡ 128 }
    requires d_bound { d ≤ 16 }
    requires d_bound_2 { at + 8 * d ≤ 128 }
    ensures s_len_2 { length s.new ≡ 128 }
    ensures s_after { s.new ≡ exchange_of s.old at d m (4 * d) }
{
    // An index: both rows are of one array.
    for x in 0..4 * d {
        let a = s[at + x];
        let b = s[at + 4 * d + x];
        let t = moved(a, b, d, m);
        s[at + 4 * d + x] = b ^ t;
        s[at + x] = a ^ (t << d);
    }
}

// n pairs of such rows, each 8 * d words behind the one before.
fn stage(s: &mut [u32; 128], d: usize, m: u32, n: usize)
    requires s_len { length s.old ≡ 128 }
    requires d_bound { d ≤ 16 }
    requires n_bound { 8 * d * n ≤ 128 }
    requires n_bound_2 { n ≤ 16 }
    ensures s_len_2 { length s.new ≡ 128 }
    ensures s_after { s.new ≡ stage_of s.old d m n }
{
    for i in 0..n {
        exchange(s, 8 * d * i, d, m);
    }
}

pub fn turn(s: &mut [u32; 128])
    requires { length s.old ≡ 128 }
    ensures s_len { length s.new ≡ 128 }
    ensures s_after { s.new ≡ turn_of s.old }
{
    stage(s, 16, 0xffff, 1);
    stage(s, 8, 0xff_00ff, 2);
    stage(s, 4, 0xf0f_0f0f, 4);
    stage(s, 2, 0x3333_3333, 8);
    stage(s, 1, 0x5555_5555, 16);
}
