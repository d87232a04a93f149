// N bytes of a string as an array.
ghost use Rattle.std.specs.Prelude.{◌≡◌, ◌+◌, ◌<◌, ◌≤◌, ℕ, length, get_or};

use buffers::padded;

// Those from a place on.
pub(crate) fn bytes_there<const N: usize>(s: &[u8], at: usize) -> [u8; N]
    requires { at + N ≤ length s.now }
    ensures { (k : ℕ) → k < N → get_or result k 0 ≡ get_or s.now (at + k) 0 }
{
    let mut bytes = [0; N];
    bytes.copy_from_slice(&s[at..at + N]);
    bytes
}

// Those from a place on, where a byte past the end counts as 0.
pub(crate) fn bytes_at<const N: usize>(s: &[u8], at: usize) -> [u8; N]
    ensures { (k : ℕ) → k < N → get_or result k 0 ≡ get_or s.now (at + k) 0 }
{
    let Some(rest) = s.get(at..) else {
        return [0; N];
    };
    let Some(bytes) = rest.first_chunk() else {
        return padded(rest);
    };
    *bytes
}
