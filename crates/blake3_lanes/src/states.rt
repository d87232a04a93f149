// A lane's state or message by itself, as its four columns.
ghost use Rattle.std.specs.Prelude.{◌++◌, ◌≡◌, ◌+◌, ◌≤◌, length, take, drop, replicate};
ghost use Rattle.blake3.specs.Words.{block_words};
ghost use Rattle.blake3_compression.specs.Compression.{iv};
ghost use Rattle.blake3_compression.specs.Columns.{words};
ghost use Rattle.blake3_lanes.specs.Lanes.{folded, folded_column};

use blake3::{IV, block_words};
use blake3_compression::{State, columns_of};
use blake3_mixing::Quad;

// The chaining value of the last state, as its first eight words.
pub(crate) fn fold(t: State) -> State
    ensures { words result ≡ folded (words t) }
{
    State {
        p: fold_column(t.p),
        q: fold_column(t.q),
        r: fold_column(t.r),
        s: fold_column(t.s),
    }
}

fn fold_column(q: Quad) -> Quad
    ensures { result ≡ folded_column q }
{
    Quad {
        a: q.a ^ q.c,
        b: q.b ^ q.d,
        c: q.c,
        d: q.d,
    }
}

// The first chaining value of a chunk.
pub(crate) fn first() -> State
    ensures { words result ≡ iv ++ replicate 8 0 }
{
    State {
        p: Quad {
            a: IV[0],
            b: IV[4],
            c: 0,
            d: 0,
        },
        q: Quad {
            a: IV[1],
            b: IV[5],
            c: 0,
            d: 0,
        },
        r: Quad {
            a: IV[2],
            b: IV[6],
            c: 0,
            d: 0,
        },
        s: Quad {
            a: IV[3],
            b: IV[7],
            c: 0,
            d: 0,
        },
    }
}

// The message of the whole block at a place. That the block is whole is seen here, so that no read asks for its end.
pub(crate) fn message_at(s: &[u8], at: usize) -> State
    requires { at + 64 ≤ length s.now }
    ensures { words result ≡ block_words (take 64 (drop at s.now)) }
{
    let end = at + 64;
    columns_of(block_words(&s[at..end]))
}
