// SubBytes on planes of bits: 32 blocks at once.
ghost use Rattle.std.specs.Prelude.{◌≡◌, ◌+◌, ◌*◌, ◌<◌, ◌≤◌, length};
ghost use Rattle.aes_circuit.specs.Planes.{planes};
ghost use Rattle.aes_planes.specs.Sub.{store_of, row_of, sub_of};

use aes_circuit::Bits;

fn load(s: &[u32; 128], at: usize) -> Bits
    requires { at < 100 }
    ensures { result ≡ planes 4 s.now at }
{
    Bits {
        x0: s[at + 28],
        x1: s[at + 24],
        x2: s[at + 20],
        x3: s[at + 16],
        x4: s[at + 12],
        x5: s[at + 8],
        x6: s[at + 4],
        x7: s[at],
    }
}

// A row of bytes after SubBytes, each plane twice: eight words, so that ShiftRows is a place to read from.
fn store(t: &mut [u32; 256], at: usize, x: Bits)
    requires t_len { length t.old ≡ 256 }
    requires at_bound { at < 200 }
    ensures t_len_2 { length t.new ≡ 256 }
    ensures t_after { t.new ≡ store_of t.old at x }
{
    t[at + 56] = x.x0;
    t[at + 48] = x.x1;
    t[at + 40] = x.x2;
    t[at + 32] = x.x3;
    t[at + 24] = x.x4;
    t[at + 16] = x.x5;
    t[at + 8] = x.x6;
    t[at] = x.x7;
}

// SubBytes of row r.
fn sub_row(t: &mut [u32; 256], s: &[u32; 128], r: usize)
    requires t_len { length t.old ≡ 256 }
    requires r_bound { r < 4 }
    ensures t_len_2 { length t.new ≡ 256 }
    ensures t_after { t.new ≡ row_of t.old s.now r 4 }
{
    for j in 0..4 {
        let x = aes_circuit::sbox(load(s, 32 * r + j));
        store(t, 64 * r + j, x);
        store(t, 64 * r + 4 + j, x);
    }
}

pub fn sub_bytes(t: &mut [u32; 256], s: &[u32; 128])
    requires { length t.old ≡ 256 }
    ensures t_len { length t.new ≡ 256 }
    ensures t_after { t.new ≡ sub_of t.old s.now 4 }
{
    for r in (0..4).rev() {
        sub_row(t, s, r);
    }
}
