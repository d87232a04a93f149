// The window of packet IDs in four words: moved up, asked for a mark, and given one.
#![tactic(auto)]

ghost use Rattle.std.specs.Prelude.{◌≡◌, false, ◌+◌, ◌*◌, ◌%◌, ◌^◌, ◌<◌};
ghost use Rattle.session_window.specs.Window.{window, bit, number, word_of};

pub const WINDOW: u64 = 256;

// The upper word of the pair (hi, lo) moved up by n bits.
fn raised(hi: u64, lo: u64, n: u64) -> u64
    requires { n < 64 }
    ensures { result ≡ word_of ((lo + hi * 2 ^ 64) * 2 ^ n) 1 }
{
    if n == 0 {
        return hi;
    }
    (hi << n) | (lo >> (64 - n))
}

// Word k of the window moved up by d bits.
fn moved_word(marks: [u64; 4], d: u64, k: usize) -> u64
    requires { (k < 4) × (d < window) }
    ensures { result ≡ word_of (number marks * 2 ^ d) k }
{
    let w = (d / 64) as usize;
    let n = d % 64;
    if k < w {
        return 0;
    }
    if k == w {
        return raised(marks[0], 0, n);
    }
    raised(marks[k - w], marks[k - w - 1], n)
}

// The window moved up by d, with the new highest packet ID marked.
pub fn shifted(marks: [u64; 4], d: u64) -> [u64; 4]
    requires { 0 < d }
    ensures { number result ≡ (number marks * 2 ^ d + 1) % 2 ^ window }
{
    if WINDOW <= d {
        return [1, 0, 0, 0];
    }
    [
        moved_word(marks, d, 0) + 1,
        moved_word(marks, d, 1),
        moved_word(marks, d, 2),
        moved_word(marks, d, 3),
    ]
}

// Whether bit j of the window is set.
pub fn is_marked(marks: [u64; 4], j: u64) -> bool
    requires { j < window }
    ensures { result ≡ bit (number marks) j }
{
    let k = (j / 64) as usize;
    (marks[k] >> (j % 64)) % 2 == 1
}

// The window with bit j, which is not set, set.
pub fn with_mark(marks: [u64; 4], j: u64) -> [u64; 4]
    requires { (j < window) × (bit (number marks) j ≡ false) }
    ensures { number result ≡ number marks + 2 ^ j }
{
    let k = (j / 64) as usize;
    let mut m = marks;
    m[k] += 1 << (j % 64);
    m
}
