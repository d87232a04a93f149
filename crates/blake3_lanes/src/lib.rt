// Four chunks of BLAKE3 side by side: word i of the state j stands at 4 i + j of one array, and the messages behind the states. The
// compiler works on all four at once where the array is all that is lent to the loop over them.
#![tactic(auto)]

mod states;

ghost use Rattle.std.specs.Prelude.{◌≡◌, ◌+◌, ◌*◌, ◌^◌, ◌<◌, ◌≤◌, length};
ghost use Rattle.blake3_compression.specs.Compression.{first_eight};
ghost use Rattle.blake3_lanes.specs.Lanes.{column, set_column, set_columns, columns_at, state, Each, same, same_message, firsts, loaded};
ghost use Rattle.blake3_lanes.specs.Lanes.{started, mixed, reordered, folded_states, Rounded, Blocks, Chunks};

use blake3::{CHUNK_END, CHUNK_START};
use blake3_compression::{State, permute, round, start};
use blake3_mixing::Quad;
use states::{first, fold, message_at};

// Column i of lane j; from 16 on, of its message.
fn load_column(x: &[u32; 128], i: usize, j: usize) -> Quad
    requires { (i < 20) × (j < 4) }
    ensures { result ≡ column x.now i j }
{
    Quad {
        a: x[4 * i + j],
        b: x[4 * (i + 4) + j],
        c: x[4 * (i + 8) + j],
        d: x[4 * (i + 12) + j],
    }
}

fn load(x: &[u32; 128], i: usize, j: usize) -> State
    requires { (i ≤ 16) × (j < 4) }
    ensures { result ≡ columns_at x.now i j }
{
    State {
        p: load_column(x, i, j),
        q: load_column(x, i + 1, j),
        r: load_column(x, i + 2, j),
        s: load_column(x, i + 3, j),
    }
}

fn store_column(x: &mut [u32; 128], i: usize, j: usize, q: Quad)
    requires { (i < 20) × (j < 4) }
    ensures { x.new ≡ set_column x.old i j q }
{
    x[4 * i + j] = q.a;
    x[4 * (i + 4) + j] = q.b;
    x[4 * (i + 8) + j] = q.c;
    x[4 * (i + 12) + j] = q.d;
}

fn store(x: &mut [u32; 128], i: usize, j: usize, t: State)
    requires { (i ≤ 16) × (j < 4) }
    ensures { x.new ≡ set_columns x.old i j t }
{
    store_column(x, i, j, t.p);
    store_column(x, i + 1, j, t.q);
    store_column(x, i + 2, j, t.r);
    store_column(x, i + 3, j, t.s);
}

fn first_values(x: &mut [u32; 128])
    ensures { Each firsts same_message x.old x.new }
{
    // An index: the words of lane j lie four apart, and no slice holds them alone.
    for j in 0..4 {
        store(x, 0, j, first());
    }
}

// The messages of the blocks at the place `at` of four chunks.
fn load_messages(x: &mut [u32; 128], s: &[u8], at: usize)
    requires at_in_bounds { at + 3136 ≤ length s.now }
    ensures { Each same (loaded s.now at) x.old x.new }
{
    // An index: the words of lane j lie four apart, and no slice holds them alone.
    for j in 0..4 {
        store(x, 16, j, message_at(s, at + 1024 * j));
    }
}

fn start_states(x: &mut [u32; 128], t: u64, d: u32)
    requires t_bound { t + 4 ≤ 2 ^ 64 }
    ensures { Each (started t d) same_message x.old x.new }
{
    // An index: the words of lane j lie four apart, and no slice holds them alone.
    for j in 0..4 {
        let h = value(x, j);
        store(x, 0, j, start(h, t + j as u64, 64, d));
    }
}

fn mix_states(x: &mut [u32; 128])
    ensures { Each mixed reordered x.old x.new }
{
    // An index: the words of lane j lie four apart, and no slice holds them alone.
    for j in 0..4 {
        let t = load(x, 0, j);
        let m = load(x, 16, j);
        store(x, 0, j, round(t, m));
        store(x, 16, j, permute(m));
    }
}

fn seven_rounds(x: &mut [u32; 128])
    ensures { Rounded x.old x.new }
{
    for _ in 0..7u32 {
        mix_states(x);
    }
}

fn fold_states(x: &mut [u32; 128])
    ensures { Each folded_states same_message x.old x.new }
{
    // An index: the words of lane j lie four apart, and no slice holds them alone.
    for j in 0..4 {
        let t = load(x, 0, j);
        store(x, 0, j, fold(t));
    }
}

// The blocks at the place `at` of four chunks, compressed.
fn compress_blocks(x: &mut [u32; 128], s: &[u8], at: usize, t: u64, d: u32)
    requires at_in_bounds { at + 3136 ≤ length s.now }
    requires t_bound { t + 4 ≤ 2 ^ 64 }
    ensures { Blocks s.now at t d x.old x.new }
{
    load_messages(x, s, at);
    start_states(x, t, d);
    seven_rounds(x);
    fold_states(x);
}

// The chaining values of four whole chunks, the first of which has the number t.
pub fn compress_chunks(x: &mut [u32; 128], s: &[u8], t: u64)
    requires s_len { length s.now ≡ 4096 }
    requires t_bound { t + 4 ≤ 2 ^ 64 }
    ensures { Chunks s.now t x.new }
{
    first_values(x);
    let mut d = CHUNK_START;
    // A block's number: it is at the same place of four chunks.
    for i in 0..15 {
        compress_blocks(x, s, 64 * i, t, d);
        d = 0;
    }
    compress_blocks(x, s, 960, t, d + CHUNK_END);
}

// The chaining value of lane j.
pub fn value(x: &[u32; 128], j: usize) -> [u32; 8]
    requires { j < 4 }
    ensures { result ≡ first_eight (state x.now j) }
{
    let t = load(x, 0, j);
    [t.p.a, t.q.a, t.r.a, t.s.a, t.p.b, t.q.b, t.r.b, t.s.b]
}
